//! Recording the datagrams of a peer.

ghost use Rattle.std.specs.Prelude.{◌≡◌, ℕ, List, [], Some, unwrap_or};
ghost use Rattle.ipfix_message.specs.declared.fault.MessageFault.TheVariants.{OutOfMemory};
ghost use Rattle.recording_files.specs.Files.{FilesView, IsEmpty};
ghost use Rattle.recording_files.specs.declared.record_fault.RecordFault.TheVariants.{Message as OfMessage};
ghost use Rattle.recording_peer.specs.Recording.{FiledDatagrams, IsPeer, HasStopped, barred_shown, Takes, FinishesFile, StaysEnded, Tells, none_filed, answer_of, left_listed};

use crate::peer_answer::PeerAnswer;
use crate::peer_session::PeerSession;
use crate::resumption::Resumption;
use ipfix_datagrams::{KnownTemplates, Reading, SequenceAdvances};
use ipfix_message::{MessageFault, header_of};
use recording_files::{FileSeries, RecordFault, Recorder, SessionCounts};
use recording_resumption::EarlierDomains;
use std::alloc::Global;
use std::marker::Model;

/// A peer that sends over UDP, while its datagrams are recorded: a transport session is its address and
/// port (RFC 7011, section 10.3). Once a call fails, each later one fails with that fault.
#[derive(Drop)]
pub struct PeerRecorder {
    pub(crate) recorder: Recorder,
    pub(crate) earlier: EarlierDomains,
    pub(crate) known: KnownTemplates,
    pub(crate) counts: SessionCounts,
    pub(crate) ignored: u64,
    pub(crate) advances: SequenceAdvances,
    pub(crate) resumed: Vec<Resumption>,
    pub(crate) ended: Option<RecordFault>,
    pub(crate) out: Vec<u8>,
}

impl Model for PeerRecorder {
    ghost use Rattle.recording_peer.specs.Recording.{PeerView, known_shown, left_listed};

    ghost Value = { PeerView };

    ghost view = { λ r. record {
      recorder = r.recorder;
      earlier = left_listed r.earlier.entries;
      known = known_shown r.known;
      told = record {
        counts = r.counts.told;
        ignored = r.ignored;
        advances = r.advances.reaches;
        resumed = r.resumed.items;
      };
      ended = r.ended;
    } };
}

impl PeerRecorder {
    /// A peer of which nothing has come yet, with a budget for its templates: each counts 8 and its field specifiers, and each
    /// domain 16. An earlier run may have left templates in its domains. A datagram that comes late replaces no template that was
    /// sent after it, and taken at most so many seconds before it; with 0 each that comes does.
    pub fn new(alloc: Global, earlier: EarlierDomains, budget: u64, reorder: u64) -> Self
        ensures peer { (v : FilesView) → IsEmpty v.contents → IsPeer v v result (none_filed earlier) }
        ensures earlier { result.earlier ≡ left_listed earlier.entries }
        ensures budget { result.known.budget ≡ budget }
        ensures reorder { result.known.reorder ≡ reorder }
        ensures barred { (domain : ℕ) → barred_shown result.known domain ≡ [] }
    {
        PeerRecorder {
            recorder: Recorder::new(alloc),
            earlier,
            known: KnownTemplates::new(alloc, budget, reorder),
            counts: SessionCounts::new(alloc),
            ignored: 0,
            advances: SequenceAdvances::new(alloc),
            resumed: Vec::new(alloc),
            ended: None,
            out: Vec::new(alloc),
        }
    }

    /// Takes a datagram at a second, which isn't before that of the one before. One that is read after the rules over UDP is recorded as it came, after the
    /// head of the file if it is the file's first, and after a preamble of its domain if the file has none of the domain's messages
    /// yet and an earlier file has. If it changes templates, a message in front of it withdraws them; if it has data sets of
    /// templates that an earlier one withdrew, messages that define them again; and if its domain goes on after an earlier
    /// run, messages that define the templates that this left, with the sequence number that was due then. It answers what a recorded
    /// datagram adds to the counts. A datagram of withdrawals alone is ignored: only its withdrawals are counted.
    /// One with which what is known of the peer's templates would count more than the budget is refused, and the ids for which it
    /// would have changed what is known have no template from then on: those that are in force in the files are withdrawn before the
    /// next datagram of the domain. Any other datagram is refused, and changes nothing.
    ///
    /// One comes late whose sequence number is before the one after the furthest of its domain. The templates that were sent after
    /// it, and taken at most `reorder` seconds before it, don't describe its data sets, which are unknown (RFC 7011, section 8.2). If
    /// it would define one of them otherwise, it is refused with `TemplateChanged`.
    ///
    /// The fault is `NotWritten` where a call of the files failed, or `OutOfMemory`: then the peer has ended,
    /// and the datagrams before are whole.
    pub fn take<F: FileSeries>(
        &mut self,
        alloc: Global,
        datagram: &[u8],
        second: u64,
        files: &mut F,
    ) -> Result<PeerAnswer, RecordFault>
        ensures answers { Takes F.seen second datagram.now result self.old self.new files.old files.new }
        ensures ended { StaysEnded F.seen result self.old self.new files.old files.new }
    {
        if let Some(fault) = &self.ended {
            return Err(*fault);
        }
        let header = match header_of(datagram) {
            Ok(header) => header,
            Err(malformed) => return Ok(PeerAnswer::Refused(malformed)),
        };
        let reading = match self.read(alloc, &header, second, datagram) {
            Ok(Reading::Kept(reading)) => reading,
            Ok(Reading::TooMuch(ids)) => return self.refuse_too_much(alloc, &header, &ids),
            Ok(Reading::Ignored(withdrawals)) => {
                self.ignored = self.ignored.saturating_add(withdrawals);
                return Ok(PeerAnswer::Ignored);
            }
            Err(fault) => return Ok(PeerAnswer::Refused(fault)),
        };
        match self.record(alloc, &header, second, &reading, datagram, files) {
            Ok(count) => Ok(PeerAnswer::Recorded(count)),
            Err(fault) => {
                self.ended = Some(fault);
                Err(fault)
            }
        }
    }

    /// Finishes the file that isn't finished with its report, if it has a datagram, and begins the next. The
    /// fault is `NotWritten`: then the peer has ended.
    pub fn finish_file<F: FileSeries>(&mut self, files: &mut F) -> Result<(), RecordFault>
        ensures finishes { FinishesFile F.seen result self.old self.new files.old files.new }
        ensures ended { StaysEnded F.seen result self.old self.new files.old files.new }
    {
        if let Some(fault) = &self.ended {
            return Err(*fault);
        }
        self.turn(files)
    }

    /// The domains that went on after an earlier run, in the order in which they did.
    pub fn resumed(&self) -> &[Resumption]
        ensures { result.now ≡ self.now.told.resumed }
    {
        &self.resumed
    }

    /// Ends the peer for want of memory, as where its next datagram can't be kept until it is due, and answers
    /// that fault. The datagrams before are whole. A peer that has ended answers its fault, and stays as it is.
    pub fn end(&mut self) -> RecordFault
        ensures fault { result ≡ unwrap_or self.old.ended (OfMessage OutOfMemory) }
        ensures ended { self.new ≡ record self.old { ended = Some result } }
        ensures stopped { (first after : FilesView) (filed : FiledDatagrams) (m : List ℕ)
            → IsPeer first after self.old filed
            → HasStopped result first after self.new.told filed m }
    {
        let out_of_memory = RecordFault::Message(MessageFault::OutOfMemory);
        let fault = self.ended.unwrap_or(out_of_memory);
        self.ended = Some(fault);
        fault
    }

    /// What is told of the peer, which has ended: the report of its datagrams, and that of the file that
    /// isn't finished; and how far the sequence numbers advanced, over all its files. A datagram that wasn't
    /// recorded is in none of them. This takes no memory.
    pub fn into_session(self) -> PeerSession
        ensures told { Tells self.told result }
        ensures ended { result.session.ended ≡ answer_of self.ended }
    {
        let last = self.file_report();
        let PeerRecorder {
            recorder: _,
            earlier: _,
            known: _,
            counts,
            ignored: _,
            advances,
            resumed,
            ended,
            out: _,
        } = self;
        let mut session = counts.into_session(how_it_ended(ended));
        session.last = last;
        PeerSession {
            session,
            advances,
            resumed,
        }
    }
}

fn how_it_ended(ended: Option<RecordFault>) -> Result<(), RecordFault>
    ensures { result ≡ answer_of ended }
{
    match ended {
        Some(fault) => Err(fault),
        None => Ok(()),
    }
}
