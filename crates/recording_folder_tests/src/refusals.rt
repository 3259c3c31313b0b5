//! Which calls on a disk in memory are refused, and why.

/// The system's errors: a call that is not permitted, as where a disk has no hard links.
pub const NOT_PERMITTED: i32 = 1;

/// A name that is not there.
pub const NO_ENTRY: i32 = 2;

/// No descriptor is free.
pub const NO_DESCRIPTOR: i32 = 24;

/// The disk is full.
pub const NO_SPACE: i32 = 28;

/// What a call needs of the system.
#[derive(Clone, Copy, Debug, PartialEq, Eq)]
pub enum Need {
    Nothing,
    Descriptor,
    Room,
    DescriptorAndRoom,
}

/// Which calls are refused from the first one on.
#[derive(Clone, Copy, Debug, PartialEq, Eq)]
pub enum Reach {
    /// That one.
    One,
    /// That one, if it opens something.
    OneOpened,
    /// Each, as if the run had been killed.
    Each,
    /// Each that needs room, as on a full disk.
    EachForRoom,
}

/// What is refused, and with which error of the system. Calls are counted from 0.
#[derive(Clone, Copy, Debug)]
pub struct Refusal {
    pub first: u64,
    pub reach: Reach,
    pub code: i32,
}

impl Refusal {
    /// Whether a call is refused.
    pub fn refuses(&self, number: u64, need: Need) -> bool {
        let opens = need == Need::Descriptor || need == Need::DescriptorAndRoom;
        let needs_room = need == Need::Room || need == Need::DescriptorAndRoom;
        match self.reach {
            Reach::One => number == self.first,
            Reach::OneOpened => number == self.first && opens,
            Reach::Each => number >= self.first,
            Reach::EachForRoom => number >= self.first && needs_room,
        }
    }
}
