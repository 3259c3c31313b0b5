//! The least datagram of a domain that waits.

ghost use Rattle.std.specs.Prelude.{◌≡◌, ◌<◌, length, IfSome};
ghost use Rattle.recording_order.specs.Leasts as specs;

use crate::datagram::Datagram;
use crate::numbering::place;

/// The datagram of a domain that is nearest ahead of the number that is due, or the furthest before it.
#[derive(Clone, Copy)]
pub(crate) struct Least {
    /// Where it stands among those that wait.
    pub index: usize,
    /// Where its number stands beside the one that is due.
    pub place: u32,
    /// The second at which it came.
    pub second: u64,
}

// The least of one that was found before, if any, and one that came later.
fn lesser(before: Option<Least>, found: Least) -> Option<Least>
    ensures { result ≡ specs.lesser before found }
{
    match before {
        Some(least) if least.place <= found.place => Some(least),
        _ => Some(found),
    }
}

/// The least of a domain among datagrams, where this number is due. Of two that stand at one place it is the
/// one that came first.
pub(crate) fn least_of(datagrams: &[Datagram], domain: u32, due: u32) -> Option<Least>
    ensures value { result ≡ specs.least_of domain due datagrams.now }
    ensures within { IfSome result (λ least. least.index < length datagrams.now) }
{
    let mut least: Option<Least> = None;
    for index in 0..datagrams.len() {
        let header = datagrams[index].header();
        if header.domain == domain {
            let found = Least {
                index,
                place: place(due, header.sequence),
                second: datagrams[index].second(),
            };
            least = lesser(least, found);
        }
    }
    least
}
