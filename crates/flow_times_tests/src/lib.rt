//! The tests of `flow_times`.
#![tactic(auto)]

#[cfg(test)]
mod tests;
