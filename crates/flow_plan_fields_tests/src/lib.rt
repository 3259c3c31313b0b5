//! Tests of `flow_plan_fields`, by what it offers to others. They stand in a crate of their own, so that they are proved
//! without the library being proved a second time.
#![tactic(auto)]

#[cfg(test)]
mod tests;
