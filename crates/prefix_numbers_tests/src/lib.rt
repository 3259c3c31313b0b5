//! Tests of `prefix_numbers`, by what it offers to others. They stand in a crate of their own, so that
//! they are proved without the library being proved a second time.
#![tactic(auto)]

#[cfg(test)]
mod faults;
#[cfg(test)]
mod guides;
#[cfg(test)]
mod numbers;
