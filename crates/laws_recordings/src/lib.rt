//! What tables of recordings are worth: the table of all files of some sessions, and the merged table of
//! their periods, is the aggregate of all records of the sessions.
#![tactic(auto)]

pub mod laws;
