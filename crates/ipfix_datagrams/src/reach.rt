//! How far the messages of an observation domain reach.

ghost use Rattle.std.specs.Prelude.{◌≡◌};
ghost use Rattle.ipfix_datagrams.specs.Advances as specs;
ghost use Rattle.ipfix_datagrams.specs.Reaches.{reach_after};

/// How far the messages of a domain reach. The counts stop at `u64::MAX`.
#[derive(Clone, Copy)]
pub struct Reach {
    /// The sequence number after the furthest message; `None` before the first.
    pub furthest: Option<u32>,
    /// How far that is from the first message's.
    pub advance: u64,
    /// The data records that came.
    pub came: u64,
}

impl Reach {
    /// That of no messages.
    pub(crate) const EMPTY: Reach = Reach {
        furthest: None,
        advance: 0,
        came: 0,
    };

    /// The reach after one more message.
    pub(crate) fn after(&self, sequence: u32, records: u64) -> Reach
        ensures { result ≡ reach_after self.now sequence records }
    {
        let furthest = self.furthest.unwrap_or(sequence);
        let behind = sequence.wrapping_add((records % (1 << 32)) as u32);
        Reach {
            furthest: Some(further(furthest, behind)),
            advance: self.advance.saturating_add(forward(furthest, behind)),
            came: self.came.saturating_add(records),
        }
    }
}

// How far it is forward to a sequence number.
fn forward(from: u32, to: u32) -> u64
    ensures { result ≡ specs.forward from to }
{
    let gap = to.wrapping_sub(from);
    if gap < 1 << 31 { u64::from(gap) } else { 0 }
}

// The further one of two.
fn further(from: u32, to: u32) -> u32
    ensures { result ≡ specs.further from to }
{
    let gap = to.wrapping_sub(from);
    if gap < 1 << 31 { to } else { from }
}
