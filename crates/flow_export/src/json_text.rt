//! Tables as lines of JSON.

mod labels;
mod rows;

pub use labels::RowLabels;
