//! Tests of `period_tables`, `period_collect` and `tables_folder` together. They stand in a crate of their own,
//! so that they are proved without the libraries being proved a second time.
#![tactic(auto)]

#[cfg(test)]
mod removing;
#[cfg(test)]
mod rounds;
#[cfg(test)]
mod words;
