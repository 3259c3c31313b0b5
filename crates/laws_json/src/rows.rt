//! The laws of a table's lines, whatever elements files name. Each is a function that does nothing, and its contract is
//! the theorem. The names that files give are plain
//! ([`file_names_are_plain`](flow_export::laws::file_names_are_plain)).

ghost use Rattle.std.specs.Prelude.{◌≡◌, List, [], All, None};
ghost use Rattle.json.specs.Strict.{AreDistinct};
ghost use Rattle.element_registry.specs.Registries.{Known};
ghost use Rattle.flow_table.specs.Plans.{PlanValue, context_name};
ghost use Rattle.flow_table.specs.SameTables.{value_of};
ghost use Rattle.flow_table.specs.declared.table.Row.{Row};
ghost use Rattle.flow_export.specs.CsvText.{heading};
ghost use Rattle.flow_export.specs.JsonText.{row_object};
ghost use Rattle.laws_json.specs.Lines.{AreApart, IsReadAs};
ghost use Rattle.flow_export.specs.PlainNames.{PlainElements};
ghost use Rattle.laws_json.specs.RowObjects.{FitsHeading, ForHeadings, ForRows, HasAddresses, IsTableRow, NamesContext, object_of_row, RowsAreReadAs};
ghost use Rattle.laws_json.specs.Texts.{IsExactNatural, line_of, NumbersAre};
ghost use Rattle.laws_json.specs.Told.{TellsRow};

/// The line of a row is the text of one object with the names of the heading of CSV, in this order,
/// each with the value of its column, with no space, and a newline; read as JSON (RFC 8259), it is
/// this object and nothing else. Each number is below 2^53.
pub fn rows_are_objects()
    ensures text { ForRows (λ known plan row.
        row_object known plan row ≡ line_of (object_of_row known plan row)) }
    ensures value { RowsAreReadAs (λ known plan row value. value ≡ object_of_row known plan row) }
    ensures exact { RowsAreReadAs (λ known plan row value. NumbersAre IsExactNatural value) }
{}

/// No two members of a row have the same name, whatever the plan, where the names that files give can
/// stand in a heading, and none of them is that of an element of context that is a key. Without files there are
/// none, and a plan may have no such key.
pub fn names_are_different()
    ensures different { ForHeadings (λ known plan. AreDistinct (heading known plan)) }
    ensures no_files { FitsHeading [] }
    ensures no_names { (plan : PlanValue) → NamesContext [] plan }
    ensures no_context { (known : List Known) (plan : PlanValue)
        → All (λ k. context_name k.element ≡ None) plan.keys → NamesContext known plan }
{}

/// What is looked up in a row's line by a name of the heading is the row's: the ends of its interval,
/// its key, its sums and the number of its flows.
pub fn rows_tell_columns()
    ensures { ForHeadings (λ known plan. (row : Row) → IsTableRow plan row
        → IsReadAs (row_object known plan (value_of row)) (TellsRow known plan (value_of row))) }
{}

/// A line ends with a newline, and no other one stands within it: a table that is cut after each
/// newline is the lines of its rows.
pub fn rows_are_apart()
    ensures { (files : PlainElements) (plan : _)
        → AreApart HasAddresses (row_object files.known plan) }
{}
