//! Laws of the texts of tables: none needs quotes, and one flow's table is computed.

ghost use Rattle.std.specs.Prelude.{◌≡◌, IfOk};
ghost use Rattle.flow_table.specs.Plans.{PlanValue};
ghost use Rattle.flow_table.specs.SameTables.{RowValue};
ghost use Rattle.element_registry.specs.Files.{with_file};
ghost use Rattle.flow_export.specs.CsvText.{IsUnquoted, heading, row_texts};
ghost use Rattle.flow_export.specs.PlainNames.{HavePlainNames, PlainElements};
ghost use Rattle.flow_export.specs.declared.ipfix_text.rows.TheConstants.{ROWS_A_MESSAGE};

mod examples;

pub use examples::{one_flow_as_csv, one_flow_as_ipfix};

/// `csv` writes a heading and a row as they stand, with commas between the fields and a line feed at
/// the end: no field needs quotes (RFC 4180, section 2).
pub fn nothing_is_quoted()
    ensures names { (files : PlainElements) (plan : PlanValue)
        → IsUnquoted (heading files.known plan) }
    ensures rows { (plan : PlanValue) (row : RowValue) → IsUnquoted (row_texts plan row) }
{}

/// What files name needs no quotes in CSV (RFC 4180, section 2) and no escape in JSON (RFC 8259,
/// section 7): its names are letters, digits, `_`, `-` and dots.
pub fn file_names_are_plain()
    ensures { (files : PlainElements) (rows : _)
        → IfOk (with_file files.known rows) HavePlainNames }
{}

/// A message of IPFIX has at most 100 rows.
pub fn limits()
    ensures { ROWS_A_MESSAGE ≡ 100 }
{}
