//! A session in its turn.

ghost use Rattle.std.specs.Prelude.{◌≡◌, drop};
ghost use Rattle.recording_order.specs.Releases as releases;
ghost use Rattle.recording_peers.specs.Calls.{Follows, TellsCounts, TellsResumed};

use crate::peer_state::PeerState;
use recording_files::{FileSeries, RecordFault};
use recording_order::OrderCounts;
use recording_peer::Resumption;
use std::alloc::Global;

impl<F: FileSeries> PeerState<F> {
    /// Hands on those whose time is over, and finishes the file if a period is over.
    pub(crate) fn go_on(
        &mut self,
        alloc: Global,
        second: u64,
        is_over: bool,
    ) -> Result<(), RecordFault>
        ensures { Follows F.seen (λ says r. releases.tick says second r) is_over self.old self.new
            result }
    {
        self.tick(alloc, second)?;
        if is_over {
            self.recorder.finish_file(&mut self.files)
        } else {
            Ok(())
        }
    }

    /// The counts of its domains, which begin anew, if a period is over.
    pub(crate) fn take_orders(&mut self, alloc: Global, is_over: bool) -> Vec<OrderCounts>
        ensures counts { TellsCounts is_over self.old.window result.items self.new.window }
        ensures others { self.new ≡ record self.old { window = self.new.window } }
    {
        if !is_over {
            return Vec::new(alloc);
        }
        match self.window.take_counts(alloc) {
            Ok(orders) => orders,
            Err(_) => Vec::new(alloc),
        }
    }

    /// Its domains that went on after an earlier run and weren't told, which are told now.
    pub(crate) fn take_resumed(&mut self, alloc: Global) -> Vec<Resumption>
        ensures resumed { TellsResumed self.old.recorder.told.resumed result.items self.old self.new }
        ensures others { self.new ≡ record self.old {
          resumptions_told = self.new.resumptions_told;
        } }
    {
        let resumed = self.recorder.resumed();
        match Vec::from_slice(alloc, untold(resumed, self.resumptions_told)) {
            Ok(more) => {
                self.resumptions_told = resumed.len();
                more
            }
            Err(_) => Vec::new(alloc),
        }
    }
}

/// Those after so many.
#[tactic(auto, using(std::proofs::lemmas::List::drop_all))]
pub fn untold(resumed: &[Resumption], told: usize) -> &[Resumption]
    ensures { result.now ≡ drop told resumed.now }
{
    if told < resumed.len() {
        &resumed[told..]
    } else {
        &[]
    }
}
