//! A datagram that is kept.

ghost use Rattle.std.specs.Prelude.{◌≡◌, IfOk};
ghost use Rattle.recording_order.specs.Arrivals.{Arrival, arrival};

use ipfix_wire::Header;
use std::alloc::{AllocError, Global};
use std::marker::Model;

/// A copy of a datagram that came.
#[derive(Drop)]
pub struct Datagram {
    header: Header,
    second: u64,
    octets: Vec<u8>,
}

impl Model for Datagram {
    ghost Value = { Arrival };

    ghost view = { λ d. record { header = d.header; second = d.second; octets = d.octets.items } };
}

impl Datagram {
    /// A copy of a datagram that has this header and came at this second.
    pub(crate) fn copy_of(
        alloc: Global,
        header: &Header,
        second: u64,
        octets: &[u8],
    ) -> Result<Self, AllocError>
        ensures { IfOk result (λ d. d ≡ arrival header.now second octets.now) }
    {
        Ok(Datagram {
            header: *header,
            second,
            octets: Vec::from_slice(alloc, octets)?,
        })
    }

    /// What its header says.
    pub fn header(&self) -> Header
        ensures { result ≡ self.now.header }
    {
        self.header
    }

    /// The second at which it came.
    pub fn second(&self) -> u64
        ensures { result ≡ self.now.second }
    {
        self.second
    }

    /// Its octets.
    pub fn octets(&self) -> &[u8]
        ensures { result.now ≡ self.now.octets }
    {
        self.octets.as_slice()
    }
}
