//! The domains that an earlier run left of a peer.

ghost use Rattle.std.specs.Prelude.{◌≡◌, OnOk, false, option_copied};
ghost use Rattle.std.specs.BTreeMap.{get};
ghost use Rattle.std.specs.Ordering.{nat_cmp};
ghost use Rattle.recording_resumption.specs.Resumption.{LeftAfter, after, due_left, is_resumed, resumed_by};

use crate::earlier::Earlier;
use ipfix_message::Templates;
use ipfix_wire::Header;
use std::alloc::AllocError;
use std::collections::BTreeMap;

/// A domain that an earlier run left, whose templates may come into force again.
#[derive(Drop)]
pub struct EarlierDomain {
    /// What becomes of them.
    pub state: Earlier,
    /// Those that were in force at the end of that run.
    pub templates: Templates,
}

/// Those of a peer, of which none has gone on or ended.
pub type EarlierDomains = BTreeMap<u32, EarlierDomain>;

impl EarlierDomain {
    // Whether it goes on with a datagram.
    fn resumes(&self, header: &Header) -> bool
        ensures { result ≡ is_resumed (after self.now.state header.now false) }
    {
        self.state.after(header, false).is_resumed()
    }

    /// The sequence number that was due at the end, if one is known.
    pub fn due(&self) -> Option<u32>
        ensures { result ≡ due_left self.now.state }
    {
        match self.state {
            Earlier::Waiting { last, .. } => last.due,
            Earlier::Resumed => None,
            Earlier::Ended => None,
        }
    }
}

/// The domain that goes on with a datagram, if one does.
pub fn resumed<'a>(earlier: &'a EarlierDomains, header: &Header) -> Option<&'a EarlierDomain>
    ensures { option_copied result
        ≡ resumed_by (get nat_cmp earlier.now header.now.domain) header.now }
{
    let domain = earlier.get(&header.domain)?;
    if domain.resumes(header) {
        Some(domain)
    } else {
        None
    }
}

/// After a datagram that was taken, and whether it defines a template: a domain that has gone on or ended is no longer
/// among them. Without memory they are of no use.
pub fn go_on(earlier: &mut EarlierDomains, header: &Header, defines: bool) -> Result<(), AllocError>
    ensures { OnOk result (LeftAfter earlier.old earlier.new header.now defines) }
{
    let Some(domain) = earlier.remove(&header.domain) else {
        return Ok(());
    };
    let EarlierDomain { state, templates } = domain;
    let state = state.after(header, defines);
    if state.is_waiting() {
        earlier.insert(header.domain, EarlierDomain { state, templates })?;
    }
    Ok(())
}
