//! What is to be done with a datagram that comes.

ghost use Rattle.std.specs.Prelude.{◌≡◌, OnOk, OnErr};
ghost use Rattle.recording_order.specs.Arrivals.{arrival};
ghost use Rattle.recording_order.specs.Windows as specs;
ghost use Rattle.recording_order.specs.Windows.{IsOffer, least, offered, if_ahead, offered_full};

use crate::data_sets::has_data;
use crate::datagram::Datagram;
use crate::last::fit;
use crate::limits::{MOST_WAITING, ROOM};
use crate::lists::{count_in, is_among, room_beside};
use crate::numbering::{Standing, place, standing_of};
use crate::offer::Offer;
use crate::window::Window;
use ipfix_wire::Header;
use std::alloc::{AllocError, Global};

impl Window {
    // Whether a datagram of a domain has a data set, and is the same as one that waits or one of the last.
    fn is_doubled(&self, domain: u32, datagram: &[u8]) -> bool
        ensures { result ≡ specs.is_doubled self.now domain datagram.now }
    {
        has_data(datagram)
            && (is_among(&self.waiting, domain, datagram) || is_among(&self.last, domain, datagram))
    }

    // Whether there is room for one more of a domain, which has so many octets.
    fn has_room(&self, domain: u32, octets: usize) -> bool
        ensures { result ≡ specs.has_room self.now domain octets }
    {
        count_in(&self.waiting, domain) < MOST_WAITING && octets <= room_beside(ROOM, &self.waiting)
    }

    // Keeps a datagram that waits.
    fn hold(&mut self, datagram: Datagram) -> Result<(), AllocError>
        ensures ok { OnOk result (self.new ≡ specs.held self.old datagram) }
        ensures err { OnErr result (self.new ≡ self.old) }
    {
        self.waiting.push(datagram)?;
        fit(room_beside(ROOM, &self.waiting), &mut self.last);
        Ok(())
    }

    // Writes the least of those that wait and one for which there is no room.
    fn offer_full(&mut self, header: &Header) -> Offer
        ensures { (result, self.new)
            ≡ offered_full self.old header.now (least self.old header.now.domain) }
    {
        let own_place = place(self.due_number(header.domain), header.sequence);
        match self.least(header.domain) {
            Some(least) if least.place <= own_place => Offer::First(self.leave_at(least.index)),
            _ => {
                self.pass(header.domain);
                Offer::Write
            }
        }
    }

    // What is to be done with one that is ahead of the due number.
    fn offer_ahead(
        &mut self,
        alloc: Global,
        header: &Header,
        datagram: &[u8],
        second: u64,
    ) -> Result<Offer, AllocError>
        ensures ok { IsOffer result self.new
            (if_ahead self.old (arrival header.now second datagram.now)) }
        ensures err { OnErr result (self.new ≡ self.old) }
    {
        if !self.has_room(header.domain, datagram.len()) {
            return Ok(self.offer_full(header));
        }
        self.hold(Datagram::copy_of(alloc, header, second, datagram)?)?;
        Ok(Offer::Waits)
    }

    /// Offers a datagram that came at this second, with its header. The seconds of a peer's datagrams never
    /// go back. An `Err` changes nothing.
    pub fn offer(
        &mut self,
        alloc: Global,
        header: &Header,
        datagram: &[u8],
        second: u64,
    ) -> Result<Offer, AllocError>
        ensures ok { IsOffer result self.new
            (offered self.old (arrival header.now second datagram.now)) }
        ensures err { OnErr result (self.new ≡ self.old) }
    {
        if self.seconds == 0 {
            return Ok(Offer::Write);
        }
        if self.is_doubled(header.domain, datagram) {
            self.count_doubled(header.domain);
            return Ok(Offer::Doubled);
        }
        match standing_of(self.numbering(header.domain), header.sequence) {
            Standing::AtOnce => {
                self.pass(header.domain);
                Ok(Offer::Write)
            }
            Standing::Ahead => self.offer_ahead(alloc, header, datagram, second),
            Standing::Afar => Ok(Offer::Anew),
        }
    }
}
