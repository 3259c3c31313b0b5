//! The files of peers in a folder of recordings.

use crate::finishing::{FileQueue, QueueFinisher};
use crate::socket_drops::SocketDrops;
use recording_connections::{SessionNumber, SharedCounts};
use recording_files::{FileSeries, PeriodClock};
use recording_folder::{EarlierPeers, SessionFiles, SystemPeriods, SystemPlace};
use recording_lines::WholeLines;
use recording_names::Transport;
use recording_peers::PeerPlace;
use recording_resumption::EarlierDomains;
use recording_sockets::system_drops;
use std::alloc::{AllocError, Global};
use std::collections::BTreeMap;
use std::fs::Files;
use std::io::Write;
use std::net::SocketAddr;
use std::rt::Clock;
use std::sync::{Mutex, Wait};
use std::time::Instant;

/// The files of a peer, which wait in a queue to be finished.
pub(crate) type PeerFiles<'a, R, W, E> = SessionFiles<'a, R, QueueFinisher<'a, R, W, E>>;

/// Makes the files of peers in a folder, all in the periods of one clock. They are finished by threads
/// of their own, and told; and each session has the next number of the shared counts.
#[derive(Drop)]
pub struct PeerFolder<'a, R: Files + Clock, W: Wait, E: Write + Copy + Drop> {
    pub place: SystemPlace<'a, R>,
    pub periods: SystemPeriods<'a, R>,
    /// What an earlier run left of peers that have not sent yet.
    pub earlier: EarlierPeers,
    /// For how many seconds that is kept, and since when.
    pub kept_for: u64,
    pub begun: Option<Instant>,
    /// Where they wait, if a thread finishes them.
    pub queue: Option<&'a FileQueue<R::File>>,
    pub shared: &'a Mutex<SharedCounts>,
    pub waiting: &'a W,
    pub err: E,
    /// What the system says of its sockets.
    pub rt: &'a HostRuntime,
    /// The socket of the peers' datagrams, if the system says how many it drops.
    pub drops: Option<SocketDrops>,
}

impl<'a, R: Files + Clock, W: Wait, E: Write + Copy + Drop> PeerFolder<'a, R, W, E> {
    ghost use Rattle.std.specs.Prelude.{◌≡◌, IfOk};
    ghost use Rattle.std.specs.Arc.{arc_value};
    ghost use Rattle.recording_files.specs.Files.{IsEmpty};
    ghost use Rattle.recording_datagrams.specs.Names.{NamesPeer};

    /// From now on each file is finished by the thread that it comes from.
    pub(crate) fn finish_at_once(&mut self) {
        self.queue = None;
    }

    // The files of a session of a peer, which has this number.
    fn files_of(
        &self,
        alloc: Global,
        peer: SocketAddr,
        number: &SessionNumber,
    ) -> Result<PeerFiles<'a, R, W, E>, AllocError>
        ensures empty { IfOk result (λ files.
            IsEmpty (⟦<PeerFiles<'a, R, W, E> as FileSeries>⟧.seen files).contents) }
        ensures named { IfOk result (λ files.
            NamesPeer (arc_value files.session) peer number.now.number) }
    {
        let finisher = QueueFinisher {
            at_once: self.place.finisher(alloc, WholeLines::new(self.err)),
            queue: self.queue,
            waiting: self.waiting,
        };
        self.place.files(
            alloc,
            peer,
            Transport::Datagrams,
            number.get(),
            &self.periods,
            finisher,
        )
    }

    // Whether what an earlier run left is no longer kept. If a time isn't known it is.
    fn is_too_late(&self) -> bool {
        match (self.begun, Instant::now(self.rt)) {
            (Some(begun), Ok(now)) => now.duration_since(begun).as_secs() > self.kept_for,
            _ => false,
        }
    }

    // Tells how many datagrams the system dropped since that was told last, if any were and it says so.
    fn tell_drops(&mut self)
        ensures { self.new.periods ≡ self.old.periods }
    {
        let Some(mut drops) = self.drops else {
            return;
        };
        if let Some(dropped) = system_drops(self.rt, drops.inode) {
            // (a line that can't be written stops nothing)
            let _ = drops.tell(dropped, &mut WholeLines::new(self.err));
            self.drops = Some(drops);
        }
    }
}

impl<'a, R: Files + Clock, W: Wait, E: Write + Copy + Drop> PeerPlace<PeerFiles<'a, R, W, E>>
    for PeerFolder<'a, R, W, E> {
    ghost use Rattle.std.specs.Prelude.{ℕ};
    ghost use Rattle.std.specs.Arc.{arc_value};
    ghost use Rattle.recording_datagrams.specs.Names.{NamesPeer};

    // Its files have the name of the peer, and the number of a session.
    ghost made_for = { λ files peer. (number : ℕ) × NamesPeer (arc_value files.session) peer number };

    fn files(
        &mut self,
        alloc: Global,
        peer: SocketAddr,
    ) -> Result<PeerFiles<'a, R, W, E>, AllocError> {
        let number = self.shared.lock(self.waiting).next_session();
        self.files_of(alloc, peer, &number)
    }

    fn earlier(&mut self, alloc: Global, peer: SocketAddr) -> EarlierDomains {
        if self.is_too_late() {
            self.earlier = EarlierPeers::new(alloc);
        }
        match self.earlier.take(alloc, peer) {
            Ok(domains) => domains,
            // (without memory the peer's datagrams are read as those of a new one)
            Err(_) => BTreeMap::new(alloc),
        }
    }

    fn is_busy(&self) -> bool {
        match self.queue {
            Some(queue) => queue.enter.is_full(),
            None => false,
        }
    }

    fn give_back(&mut self, alloc: Global, peer: SocketAddr, earlier: EarlierDomains) {
        // (without memory the peer's datagrams are read as those of a new one)
        let _ = self.earlier.give_back(alloc, peer, earlier);
    }
}

impl<'a, R: Files + Clock, W: Wait, E: Write + Copy + Drop> PeriodClock
    for PeerFolder<'a, R, W, E> {
    ghost asked = { λ p. ⟦<SystemPeriods<'a, R> as PeriodClock>⟧.asked p.periods };

    // (where a period is over that is the time to say what the system dropped)
    fn is_over(&mut self) -> bool {
        let is_over = self.periods.is_over();
        if is_over {
            self.tell_drops();
        }
        is_over
    }
}
