//! The tests of `exporter_options`.
#![tactic(auto)]

#[cfg(test)]
mod tests;
