//! Which table a receipt is beside.

ghost use Rattle.std.specs.Prelude.{◌≡◌, ◌++◌, List, ℕ, codes, IfNone, IfSome};

/// The path of a receipt without `.receipt` at its end, if it ends so.
pub fn table_of_receipt(path: &str) -> Option<&str>
    ensures some { IfSome result (λ table. path.now ≡ table.now ++ codes ".receipt") }
    ensures none { IfNone result ((table : List ℕ) → path.now ≡ table ++ codes ".receipt" → ⊥) }
{
    path.strip_suffix(".receipt")
}
