//! Faults in plain words: what was found, by which rule it is a fault, and what an operator does about it.
#![tactic(auto)]

mod ending_fault;
mod explaining;
mod faults;
mod guide;
mod laws;
mod run_explaining;
mod run_faults;
mod run_guide;

pub use ending_fault::EndingFault;
pub use explaining::{explain, fault_named, list_faults, run_explain};
pub use faults::FAULTS;
pub use guide::Explanation;
pub use laws::faults_are_in_order;
pub use run_explaining::{explain_run_fault, run_fault_named};
pub use run_faults::{RUN_FAULTS, RunFault};
