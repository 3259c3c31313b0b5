//! Datagrams that waited, and are to be written.

ghost use Rattle.std.specs.Prelude.{◌≡◌, ◌<◌, length, IfSome};
ghost use Rattle.recording_order.specs.Windows as specs;

use crate::datagram::Datagram;
use crate::least::Least;
use crate::numbering::MIDDLE;
use crate::window::Window;

impl Window {
    // Whether a number is due in a domain.
    fn is_due(&self, domain: u32) -> bool
        ensures { result ≡ specs.is_due self.now domain }
    {
        match self.numbering(domain) {
            Some(known) => known.is_due,
            None => false,
        }
    }

    // Whether the least of a domain is to be written at a second.
    fn is_ripe(&self, domain: u32, second: u64, least: Least) -> bool
        ensures { result ≡ specs.is_ripe self.now domain second least }
    {
        !self.is_due(domain)
            || least.place <= MIDDLE
            || self.seconds < second.saturating_sub(least.second)
    }

    // The least of a domain, if it is to be written at a second.
    fn ripe(&self, domain: u32, second: u64) -> Option<Least>
        ensures value { result ≡ specs.ripe self.now domain second }
        ensures within { IfSome result (λ least. least.index < length self.now.waiting) }
    {
        match self.least(domain) {
            Some(least) if self.is_ripe(domain, second, least) => Some(least),
            _ => None,
        }
    }

    // Whether the time of one that waits is over, and the least of its domain is to be written.
    fn is_late(&self, second: u64, datagram: &Datagram) -> bool
        ensures { result ≡ specs.is_late self.now second datagram.now }
    {
        self.seconds < second.saturating_sub(datagram.second())
            && self.ripe(datagram.header().domain, second).is_some()
    }

    /// The next datagram of a domain that waited and is to be written at this second, if there is one: the
    /// least, where it is due now, or its time is over. Then ask again, once it was written. Seconds are
    /// whole, so the time of one is over once more than the seconds of the window lie between the second at
    /// which it came and this one: it waits for at least that long, and for less than a second more.
    pub fn next(&mut self, domain: u32, second: u64) -> Option<Datagram>
        ensures { specs.Leaves (specs.next_of self.old domain second) self.old result self.new }
    {
        match self.ripe(domain, second) {
            Some(least) => Some(self.leave_at(least.index)),
            None => None,
        }
    }

    /// A domain where the time of a datagram is over at this second, and [`Window::next`] has one to write.
    pub fn late_domain(&self, second: u64) -> Option<u32>
        ensures { result ≡ specs.late_domain self.now second }
    {
        self.waiting
            .iter()
            .find(|datagram| self.is_late(second, datagram))
            .map(|datagram| datagram.header().domain)
    }

    /// The least datagram of a domain that waits, whatever is due.
    pub fn leave_domain(&mut self, domain: u32) -> Option<Datagram>
        ensures { specs.Leaves (specs.least_in self.old domain) self.old result self.new }
    {
        let least = self.least(domain)?;
        Some(self.leave_at(least.index))
    }

    /// The next datagram that is to be written at the peer's end. Those of a domain leave in their order; if
    /// there is none, nothing waits any more.
    pub fn leave(&mut self) -> Option<Datagram>
        ensures { specs.Leaves (specs.last_of self.old self.old.waiting) self.old result self.new }
    {
        let domain = self.waiting.first()?.header().domain;
        self.leave_domain(domain)
    }
}
