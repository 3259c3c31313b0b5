mod merging;
mod plans;
mod rows;
