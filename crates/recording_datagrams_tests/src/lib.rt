//! Tests of `recording_datagrams`, by what it offers to others. They stand in a crate of their own, so that they
//! are proved without the library being proved a second time.
#![tactic(auto)]

#[cfg(test)]
mod drops;
#[cfg(test)]
mod endings;
#[cfg(test)]
mod order;
#[cfg(test)]
mod places;
#[cfg(test)]
mod rounds;
