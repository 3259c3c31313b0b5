//! A peer in files: what stands in them, what each gives, and what refused datagrams and failed calls do.

mod datagrams;
mod endings;
mod files;
mod late;
mod refusals;
mod reports;
mod resuming;
mod running;
mod told;
