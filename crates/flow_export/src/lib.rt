//! Tables of aggregated flows as text: as CSV (RFC 4180), as lines of JSON (RFC 8259), and as messages of IPFIX
//! (RFC 7011).
#![tactic(auto)]

mod address_text;
mod any_table;
mod csv_text;
mod fault;
mod format;
mod front;
mod intervals;
mod ipfix_text;
mod json_text;
mod key_name;
pub mod laws;
mod made_rows;
mod row_lines;
mod shown_cells;
mod table_rows;
mod table_text;
mod tables;

pub use any_table::AnyTable;
pub use csv_text::write_csv;
pub use fault::ExportFault;
pub use format::Format;
pub use intervals::Intervals;
pub use ipfix_text::{ROWS_A_MESSAGE, ipfix_bytes};
pub use shown_cells::shown_cell;
pub use table_text::TableText;
pub use tables::write_table;
