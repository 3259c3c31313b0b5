//! A peer whose datagrams are written in a list, through a window.

use crate::exporter::Sent;
use ipfix_wire::Header;
use recording_order::{DatagramCounts, Offer, Window};
use std::alloc::{AllocError, Global};

/// The window of a peer, and the domain and the sequence number of each datagram that was written.
#[derive(Drop)]
pub struct Peer {
    pub window: Window,
    pub written: Vec<(u32, u32)>,
}

// What a recorder says of a datagram of an exporter: there are templates alone, records of template 256, or
// a set without a template.
fn counts_of(header: &Header, octets: &[u8]) -> DatagramCounts {
    let (records, unknown_sets) = match (octets.get(16), octets.get(17)) {
        (Some(0), _) => (0, 0),
        (Some(1), Some(0)) => (header.length.saturating_sub(20) / 4, 0),
        _ => (0, 1),
    };
    DatagramCounts {
        records: u64::from(records),
        unknown_sets,
    }
}

impl Peer {
    /// A peer of which nothing has come, whose datagrams wait for so many seconds.
    pub fn new(alloc: Global, seconds: u64) -> Self {
        Peer {
            window: Window::new(alloc, seconds),
            written: Vec::new(alloc),
        }
    }

    // Writes a datagram.
    fn write(
        &mut self,
        alloc: Global,
        header: &Header,
        octets: &[u8],
        second: u64,
    ) -> Result<(), AllocError> {
        self.written.push((header.domain, header.sequence))?;
        self.window
            .note(alloc, header, octets, second, counts_of(header, octets))
    }

    // Writes all of a domain that wait.
    fn empty(&mut self, alloc: Global, domain: u32) -> Result<(), AllocError> {
        for _ in 0..1_000 {
            let Some(next) = self.window.leave_domain(domain) else {
                return Ok(());
            };
            self.write(alloc, &next.header(), next.octets(), next.second())?;
        }
        Ok(())
    }

    // Writes those of a domain that are to be written at a second.
    fn settle(&mut self, alloc: Global, domain: u32, second: u64) -> Result<(), AllocError> {
        for _ in 0..1_000 {
            let Some(next) = self.window.next(domain, second) else {
                return Ok(());
            };
            self.write(alloc, &next.header(), next.octets(), next.second())?;
        }
        Ok(())
    }

    /// Takes a datagram that comes at a second.
    pub fn take(&mut self, alloc: Global, sent: Sent, second: u64) -> Result<(), AllocError> {
        let header = sent.header();
        let octets = sent.octets(alloc)?;
        for _ in 0..1_000 {
            match self.window.offer(alloc, &header, &octets, second)? {
                Offer::Write => {
                    self.write(alloc, &header, &octets, second)?;
                    break;
                }
                Offer::First(first) => {
                    self.write(alloc, &first.header(), first.octets(), first.second())?;
                }
                Offer::Anew => {
                    self.empty(alloc, header.domain)?;
                    self.write(alloc, &header, &octets, second)?;
                    break;
                }
                Offer::Waits | Offer::Doubled => break,
            }
        }
        self.settle(alloc, header.domain, second)
    }

    /// Takes datagrams that come at a second.
    pub fn take_all(&mut self, alloc: Global, all: &[Sent], second: u64) -> Result<(), AllocError> {
        for sent in all {
            self.take(alloc, *sent, second)?;
        }
        Ok(())
    }

    /// A second begins.
    pub fn tick(&mut self, alloc: Global, second: u64) -> Result<(), AllocError> {
        for _ in 0..1_000 {
            let Some(domain) = self.window.late_domain(second) else {
                return Ok(());
            };
            self.settle(alloc, domain, second)?;
        }
        Ok(())
    }

    /// The peer ends.
    pub fn finish(&mut self, alloc: Global) -> Result<(), AllocError> {
        for _ in 0..1_000 {
            let Some(next) = self.window.leave() else {
                return Ok(());
            };
            self.write(alloc, &next.header(), next.octets(), next.second())?;
        }
        Ok(())
    }
}
