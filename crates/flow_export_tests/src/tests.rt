mod context;
mod failing;
mod flat;
mod memory;
mod messages;
mod named;
mod tables;
