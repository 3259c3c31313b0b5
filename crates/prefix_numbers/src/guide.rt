//! Guesses of how many starts are not above an address.

use std::alloc::{AllocError, Global};

// As many starts are in an outer part on average.
const STARTS_OF_AN_OUTER_PART: u64 = 64;

/// At least how many starts are not above an address, and at most how many. It only says where to look first,
/// and what it says is tested there: so no number rests on it, and its functions promise nothing.
///
/// The addresses from the first start to the last are cut into outer parts of one size, and of each outer part
/// those from its first start to its last into inner parts of one size, about as many as it has starts. So
/// where networks are far apart, each still has small parts.
#[derive(Debug, Drop)]
pub struct Guide {
    outer: Parts,
    inner: Vec<Parts>,
}

impl Guide {
    /// The guide to starts in ascending order, which goes by what they are without so many of their last bits.
    pub fn of(alloc: Global, starts: &[u128], behind: u32) -> Result<Guide, AllocError> {
        let heads = heads_of(alloc, starts, behind)?;
        let outer = Parts::of(alloc, &heads, (0, heads.len()), STARTS_OF_AN_OUTER_PART)?;
        let mut inner = Vec::new(alloc);
        for part in 0..outer.places.len() {
            inner.push(Parts::of(alloc, &heads, outer.places_of(part), 1)?)?;
        }
        Ok(Guide { outer, inner })
    }

    /// How many starts are before the part of an address, and how many up to its end.
    #[inline]
    pub fn places_at(&self, head: u64) -> (usize, usize) {
        let part = self.outer.part(head);
        match self.inner.get(part) {
            Some(inner) => inner.places_of(inner.part(head)),
            None => self.outer.places_of(part),
        }
    }
}

// Parts of one size, a power of two, from the first of some starts to the last of them: how many of all starts
// are before each part, and how many before the end of the last one.
#[derive(Debug, Drop)]
struct Parts {
    lowest: u64,
    shift: u32,
    end: u32,
    places: Vec<u32>,
}

impl Parts {
    // The parts of the starts from one place to before another, with so many in each on average.
    fn of(
        alloc: Global,
        heads: &[u64],
        (first, end): (usize, usize),
        each: u64,
    ) -> Result<Parts, AllocError> {
        let heads = heads.get(first..end).unwrap_or(&[]);
        let mut parts = Parts {
            lowest: heads.first().copied().unwrap_or(0),
            shift: shift_of(heads, each),
            end: place_of(end),
            places: Vec::new(alloc),
        };
        for (place, head) in heads.iter().enumerate() {
            let next = parts.part(*head).saturating_add(1);
            if parts.places.len() < next {
                parts
                    .places
                    .resize(next, place_of(first.saturating_add(place)))?;
            }
        }
        Ok(parts)
    }

    // The part of an address.
    #[inline]
    fn part(&self, head: u64) -> usize {
        head.saturating_sub(self.lowest).wrapping_shr(self.shift) as usize
    }

    // How many starts are before a part, and how many up to its end.
    #[inline]
    fn places_of(&self, part: usize) -> (usize, usize) {
        (self.place(part), self.place(part.saturating_add(1)))
    }

    #[inline]
    fn place(&self, part: usize) -> usize {
        self.places.get(part).copied().unwrap_or(self.end) as usize
    }
}

// The size of parts with so many starts in each on average, as a power of two, rounded down.
fn shift_of(heads: &[u64], each: u64) -> u32 {
    let [first, .., last] = heads else {
        return 0;
    };
    let distance = last.saturating_sub(*first) / heads.len() as u64;
    distance.saturating_mul(each).max(each).max(1).ilog2()
}

/// An address without so many of its last bits, as a number of 64 bits.
#[inline]
pub fn head_of(address: u128, behind: u32) -> u64 {
    u64::try_from(address.wrapping_shr(behind)).unwrap_or(u64::MAX)
}

fn heads_of(alloc: Global, starts: &[u128], behind: u32) -> Result<Vec<u64>, AllocError> {
    let mut heads = Vec::new(alloc);
    for start in starts {
        heads.push(head_of(*start, behind))?;
    }
    Ok(heads)
}

fn place_of(place: usize) -> u32 {
    u32::try_from(place).unwrap_or(u32::MAX)
}
