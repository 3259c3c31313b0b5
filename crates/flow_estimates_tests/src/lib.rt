//! The tests of `flow_estimates`.
#![tactic(auto)]

#[cfg(test)]
mod tests;
