//! Datagrams of an exporter.

ghost use Rattle.std.specs.Prelude.{◌≤◌};

use ipfix_wire::{Header, write_header, write_set};
use std::alloc::{AllocError, Global};

/// A datagram of an exporter: a set of some id, with so many octets, and its header.
#[derive(Clone, Copy)]
pub struct Sent {
    pub domain: u32,
    pub sequence: u32,
    pub set_id: u16,
    pub body: u16,
}

/// One of domain 1 with ten records: they take four octets each.
pub const fn ten(sequence: u32) -> Sent {
    of_domain(1, sequence)
}

/// One of a domain with ten records.
pub const fn of_domain(domain: u32, sequence: u32) -> Sent {
    Sent {
        domain,
        sequence,
        set_id: 256,
        body: 40,
    }
}

/// One whose set has no template.
pub const fn unknown(sequence: u32) -> Sent {
    Sent {
        domain: 1,
        sequence,
        set_id: 300,
        body: 40,
    }
}

/// One with templates alone.
pub const fn templates(sequence: u32, body: u16) -> Sent {
    Sent {
        domain: 1,
        sequence,
        set_id: 2,
        body,
    }
}

/// One with 10,000 records.
pub const fn large(sequence: u32) -> Sent {
    Sent {
        domain: 1,
        sequence,
        set_id: 256,
        body: 40_000,
    }
}

impl Sent {
    // The octets of its set, without the set header.
    fn body(&self) -> u16
        ensures { result ≤ 40000 }
    {
        self.body.min(40_000)
    }

    /// What its header says.
    pub fn header(&self) -> Header {
        Header {
            length: 20 + self.body(),
            export_time: 1_700_000_000,
            sequence: self.sequence,
            domain: self.domain,
        }
    }

    /// Its octets.
    pub fn octets(&self, alloc: Global) -> Result<Vec<u8>, AllocError> {
        let mut octets = Vec::new(alloc);
        write_header(&self.header(), &mut octets)?;
        write_set(self.set_id, self.body(), &mut octets)?;
        for _ in 0..self.body() {
            octets.push(0)?;
        }
        Ok(octets)
    }
}
