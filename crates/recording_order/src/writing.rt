//! What is known after a datagram was written.

ghost use Rattle.std.specs.Prelude.{◌≡◌, None, OnOk, OnErr};
ghost use Rattle.recording_order.specs.Arrivals.{arrival};
ghost use Rattle.recording_order.specs.Windows as specs;

use crate::data_sets::has_data;
use crate::datagram::Datagram;
use crate::datagram_counts::DatagramCounts;
use crate::last::{fit, limit};
use crate::limits::ROOM;
use crate::lists::room_beside;
use crate::numbering::{Numbering, is_at_due, numbers_after};
use crate::window::Window;
use ipfix_wire::Header;
use std::alloc::{AllocError, Global};

impl Window {
    // The numbers of a domain are these now. There is always memory for those of a domain that has some.
    fn renumber(&mut self, domain: u32, numbering: Numbering) -> Result<(), AllocError>
        ensures ok { OnOk result (self.new ≡ specs.renumbered self.old domain numbering) }
        ensures err { OnErr result (self.new ≡ self.old) }
        ensures absent { OnErr result (specs.numbering self.old domain ≡ None) }
    {
        let _ = self.numbers.insert(domain, numbering)?;
        Ok(())
    }

    // Keeps one of the last, and what fits beside it.
    fn keep_last(&mut self, datagram: Datagram) -> Result<(), AllocError>
        ensures ok { OnOk result (self.new ≡ specs.with_last self.old datagram) }
        ensures err { OnErr result (self.new ≡ self.old) }
    {
        let domain = datagram.header().domain;
        self.last.push(datagram)?;
        limit(domain, &mut self.last);
        fit(room_beside(ROOM, &self.waiting), &mut self.last);
        Ok(())
    }

    /// Notes that a datagram, which came at this second, was written, and what the recorder says of it. One
    /// that the recorder refuses isn't noted. An `Err` changes nothing.
    pub fn note(
        &mut self,
        alloc: Global,
        header: &Header,
        datagram: &[u8],
        second: u64,
        counts: DatagramCounts,
    ) -> Result<(), AllocError>
        ensures ok { OnOk result (self.new
            ≡ specs.after_writing self.old (arrival header.now second datagram.now) counts) }
        ensures err { OnErr result (self.new ≡ self.old) }
    {
        if self.seconds == 0 {
            return Ok(());
        }
        let numbering = self.numbering(header.domain);
        if is_at_due(numbering, header.sequence) && has_data(datagram) {
            self.keep_last(Datagram::copy_of(alloc, header, second, datagram)?)?;
        }
        let after = numbers_after(numbering, header.sequence, counts);
        self.renumber(header.domain, after)
    }
}
