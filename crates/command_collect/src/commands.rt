//! What each command that collects does with what it is given.

pub mod connections;
pub mod files;
pub mod tcp;
