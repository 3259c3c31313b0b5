//! Worked examples, collected.

mod calling;
mod contexts;
mod gates;
mod meeting;
mod memory;
mod runs;
mod sampling;
mod template_limits;
mod texts;
