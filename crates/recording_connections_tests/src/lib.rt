//! Tests of `recording_connections`, by what it offers to others. They stand in a crate of their own, so that
//! they are proved without the library being proved a second time.
#![tactic(auto)]

#[cfg(test)]
mod filters;
#[cfg(test)]
mod folders;
#[cfg(test)]
mod lines;
#[cfg(test)]
mod places;
#[cfg(test)]
mod sessions;
#[cfg(test)]
mod silence;
