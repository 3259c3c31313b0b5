//! Laws of the definitions. Each is a function that does nothing, and its contract is the theorem: a call
//! brings that to the proof of its caller.

ghost use Rattle.std.specs.Prelude.{◌≡◌, ◌↔◌, ℕ, List, []};
ghost use Rattle.table_receipts.specs.Values.{InputValue, TableValue};
ghost use Rattle.receipt_differences.specs.Differences.{IsTableOf, table_differs};
ghost use Rattle.receipt_differences.specs.Remade.{text_differs};
ghost use Rattle.receipt_differences.specs.Inputs.{HaveSameInputs, inputs_differ};

/// Nothing is told of a table exactly if it has the octets that its receipt tells, by their number and SHA-256.
pub fn no_line_of_its_table()
    ensures { (t : TableValue) (text : List ℕ) → (table_differs t text ≡ []) ↔ IsTableOf t text }
{}

/// Nothing is told of a table exactly if it has the octets of the one that was made again.
pub fn no_line_of_same_text()
    ensures { (found table : List ℕ) → (text_differs found table ≡ []) ↔ (found ≡ table) }
{}

/// Nothing is told of inputs and files exactly if each input has a file of its own with the same octets and exporter, whose session gave
/// the same, and each file an input.
pub fn no_line_of_same_inputs()
    ensures { (is fs : List InputValue) → (inputs_differ is fs ≡ []) ↔ HaveSameInputs is fs }
{}
