//! What the lines of the rows of an interval begin with.

ghost use Rattle.std.specs.Prelude.{◌≡◌, None};

use std::alloc::Global;

/// What the line of each row of an interval begins with, kept for the rows that follow.
#[derive(Drop)]
pub struct Front {
    /// The interval, once there is one.
    pub interval: Option<u64>,
    pub text: Vec<u8>,
}

impl Front {
    /// That of no interval.
    pub fn new(alloc: Global) -> Self
        ensures { result.interval ≡ None }
    {
        Front {
            interval: None,
            text: Vec::new(alloc),
        }
    }
}
