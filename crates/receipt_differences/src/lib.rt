//! How a table that is there, and one that was made again, differ from what a receipt says of its table.
#![tactic(auto)]

mod inputs;
pub mod laws;
mod likeness;
mod maps;
mod numbers;
mod order;
mod remade;
mod reports;
mod tables;

pub use inputs::write_input_differences;
pub use maps::write_map_differences;
pub use numbers::write_count_differences;
pub use order::in_order;
pub use remade::{write_element_differences, write_remade_differences, write_text_difference};
pub use tables::{write_row_differences, write_table_differences};
