mod calling;
mod context;
mod memory;
mod named;
mod plans;
mod records;
mod tables;
mod uptimes;
