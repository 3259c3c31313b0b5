//! The laws that tie the objects of dumps and tables to JSON: each line is the text of a value and is read as it, and
//! what the value tells is the record's, or the row's; and a counter is read alike in dumps and in tables. They hold whatever elements are known from files: without files
//! the list of these is empty.
#![tactic(auto)]

mod counters;
mod examples;
mod lines;
mod rows;

pub use counters::counters_are_read_alike;
pub use examples::{
    one_record_as_json, one_row_as_json, one_string_as_json, wrong_texts_are_refused,
};
pub use lines::{lines_are_apart, lines_are_objects, lines_have_exact_numbers, lines_tell_records};
pub use rows::{names_are_different, rows_are_apart, rows_are_objects, rows_tell_columns};
