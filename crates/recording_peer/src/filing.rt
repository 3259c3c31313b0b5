//! Writing the files of a peer.

ghost use Rattle.std.specs.Prelude.{◌≡◌, ◌<◌, ◌++◌, Some, Ok, All, IfOk, IfErr, vec_len};
ghost use Rattle.std.specs.Option.{option_to_list};
ghost use Rattle.std.specs.BTreeMap.{btree_map_len};
ghost use Rattle.std.specs.Vec.{vec_capacity};
ghost use Rattle.ipfix_message.specs.Domains.{message_header};
ghost use Rattle.ipfix_message.specs.declared.fault.MessageFault.TheVariants.{OutOfMemory};
ghost use Rattle.recording_files.specs.declared.record_fault.RecordFault.TheVariants.{Message as OfMessage};
ghost use Rattle.recording_peer.specs.declared.peer_answer.PeerAnswer.TheVariants.{TooMuch};
ghost use Rattle.ipfix_datagrams.specs.Datagrams.{HasTemplateIds};
ghost use Rattle.ipfix_datagrams.specs.Withdrawals.{HasTemplateId};
ghost use Rattle.recording_files.specs.Files.{FilesView};
ghost use Rattle.recording_peer.specs.Peers.{resumption_in, resumption_with};
ghost use Rattle.recording_peer.specs.Recording.{AfterTaken, BarsShown, FiledDatagrams, ForResumed, IsRecorded, HasStopped, FinishesFile, Whichever, counted_report};
ghost use Rattle.recording_peer.specs.Fronts.{HasRead, ReadsAfter, ReadsWhere};
ghost use Rattle.recording_peer.specs.Late.{is_late};

use crate::fronts::take_datagram;
use crate::peer_answer::PeerAnswer;
use crate::peer_recorder::PeerRecorder;
use crate::resumption::Resumption;
use ipfix_datagrams::{DatagramReading, Moment, Reading, barred_late, keep_known, read_datagram};
use ipfix_message::MessageFault;
use ipfix_wire::Header;
use recording_files::{FileReport, FileSeries, MessageCount, RecordFault};
use recording_resumption::{EarlierDomain, go_on, resumed};
use std::alloc::Global;
use std::collections::BTreeMap;

impl PeerRecorder {
    /// The report of the file that isn't finished.
    pub(crate) fn file_report(&self) -> FileReport
        ensures { result ≡ counted_report self.now.told }
    {
        FileReport {
            ignored_withdrawals: self.ignored,
            ..self.counts.file_report()
        }
    }

    /// Finishes the file, if it has a datagram, and begins the next. After a fault it has ended.
    pub(crate) fn turn<F: FileSeries>(&mut self, files: &mut F) -> Result<(), RecordFault>
        ensures { FinishesFile F.seen result self.old self.new files.old files.new }
    {
        if !self.recorder.has_begun() {
            return Ok(());
        }
        let report = self.file_report();
        match files.turn(&report) {
            Ok(()) => {
                self.recorder.turn();
                self.counts.turn();
                self.ignored = 0;
                Ok(())
            }
            Err(_) => {
                self.ended = Some(RecordFault::NotWritten);
                Err(RecordFault::NotWritten)
            }
        }
    }

    // The sequence number that was due when an earlier run ended, if its domain goes on with this datagram.
    fn due_left(&self, header: &Header) -> Option<u32>
        ensures { ForResumed self.now header.now (λ r. result ≡ r.due) }
    {
        match resumed(&self.earlier, header) {
            Some(domain) => domain.due(),
            None => None,
        }
    }

    // Which domain goes on with this datagram after an earlier run, if that left templates in it.
    fn resumption(&self, header: &Header) -> Option<Resumption>
        ensures { ForResumed self.now header.now
            (λ r. result ≡ resumption_with header.now r) }
    {
        match resumed(&self.earlier, header) {
            Some(domain) => resumption_of(domain, header.domain),
            None => None,
        }
    }

    // Whether a datagram with this header comes late.
    fn is_late(&self, header: &Header) -> bool
        ensures { AfterTaken self.now
            (λ ts. result ≡ is_late self.now.known.reorder ts header.now) }
    {
        if 0 < self.known.reorder {
            self.advances.is_before(header.domain, header.sequence)
        } else {
            false
        }
    }

    /// Reads a datagram, whose header was read, at a second, with what is resumed before it. Before one that comes late the ids
    /// have no template whose templates were sent after it.
    pub(crate) fn read(
        &self,
        alloc: Global,
        header: &Header,
        second: u64,
        datagram: &[u8],
    ) -> Result<Reading, MessageFault>
        requires { message_header datagram.now ≡ Ok header.now }
        ensures ids { IfOk result HasTemplateIds }
        ensures reads { Whichever self.now
            (ReadsAfter self.now second datagram.now header.now result) }
    {
        if !self.is_late(header) {
            let barred = self.known.barred_in(header.domain);
            return self.read_where(alloc, header, barred, datagram);
        }
        let domains = self.recorder.domains();
        let barred = barred_late(alloc, domains, &self.known, header, second, datagram)?;
        self.read_where(alloc, header, &barred, datagram)
    }

    // Reads it where these ids have no template.
    fn read_where(
        &self,
        alloc: Global,
        header: &Header,
        barred: &[u16],
        datagram: &[u8],
    ) -> Result<Reading, MessageFault>
        requires { message_header datagram.now ≡ Ok header.now }
        ensures ids { IfOk result HasTemplateIds }
        ensures reads { Whichever self.now (ReadsWhere self.now datagram.now barred.now result) }
    {
        let domains = self.recorder.domains();
        let known = &self.known;
        match resumed(&self.earlier, header) {
            Some(domain) => {
                let templates = &domain.templates;
                read_datagram(alloc, domains, known, templates, barred, header, datagram)
            }
            None => {
                let none = BTreeMap::new(alloc);
                read_datagram(alloc, domains, known, &none, barred, header, datagram)
            }
        }
    }

    /// Refuses a datagram with this header for what it defines: these ids of its domain have no template from now on. The fault
    /// is `OutOfMemory`, and after it the peer has ended.
    pub(crate) fn refuse_too_much(
        &mut self,
        alloc: Global,
        header: &Header,
        ids: &[u16],
    ) -> Result<PeerAnswer, RecordFault>
        ensures refused { IfOk result (λ answer. answer ≡ TooMuch) }
        ensures bars { IfOk result (λ _. BarsShown self.old self.new header.now.domain ids.now) }
        ensures out { IfErr result (λ fault. fault ≡ OfMessage OutOfMemory) }
        ensures ended { IfErr result (λ fault. self.new.ended ≡ Some fault) }
        ensures told { IfErr result (λ _. self.new.told ≡ self.old.told) }
    {
        match self.known.bar(alloc, header.domain, ids) {
            Ok(()) => Ok(PeerAnswer::TooMuch),
            Err(_) => {
                let fault = RecordFault::Message(MessageFault::OutOfMemory);
                self.ended = Some(fault);
                Err(fault)
            }
        }
    }

    /// Records a datagram, whose header was read, as it is to be taken at a second, and counts and notes it then. It answers
    /// what the datagram adds to the counts.
    pub(crate) fn record<F: FileSeries>(
        &mut self,
        alloc: Global,
        header: &Header,
        second: u64,
        reading: &DatagramReading,
        datagram: &[u8],
        files: &mut F,
    ) -> Result<MessageCount, RecordFault>
        requires header { message_header datagram.now ≡ Ok header.now }
        requires ids { All HasTemplateId reading.now.withdrawn.items }
        ensures recorded { (first : FilesView) (filed : FiledDatagrams)
            → HasRead first (F.seen files.old) self.old filed second datagram.now reading.now
            → IfOk result (IsRecorded second datagram.now first (F.seen files.new) self.old self.new
            filed) }
        ensures stopped { (first : FilesView) (filed : FiledDatagrams)
            → HasRead first (F.seen files.old) self.old filed second datagram.now reading.now
            → IfErr result (λ fault. HasStopped fault first (F.seen files.new) self.new.told
            filed datagram.now) }
    {
        let due_left = self.due_left(header);
        let resumption = self.resumption(header);
        self.counts.clear_waiting();
        go_on(&mut self.earlier, header, reading.defines())?;
        let domains = self.recorder.domains();
        let now = Moment {
            export_time: header.export_time,
            second,
        };
        keep_known(alloc, &mut self.known, domains, header.domain, now, reading)?;
        let count = take_datagram(
            alloc,
            &mut self.recorder,
            header,
            due_left,
            reading,
            datagram,
            &mut self.out,
        )?;
        self.counts.wait_for(count)?;
        self.advances.make_room()?;
        self.resumed.reserve(1)?;
        files.append(&self.out)?;
        self.counts.count_waiting();
        self.ignored = self.ignored.saturating_add(reading.withdrawals);
        let header = count.header;
        self.advances
            .note(header.domain, header.sequence, count.records);
        note_resumed(&mut self.resumed, resumption);
        Ok(count)
    }
}

// That this domain goes on, if templates are left in it.
fn resumption_of(left: &EarlierDomain, domain: u32) -> Option<Resumption>
    ensures { result ≡ resumption_in domain (btree_map_len left.now.templates) }
{
    let templates = left.templates.len();
    if templates == 0 {
        None
    } else {
        Some(Resumption { domain, templates })
    }
}

// Notes that a domain went on, if one did. This takes no memory, since there is room.
fn note_resumed(resumed: &mut Vec<Resumption>, more: Option<Resumption>)
    requires { vec_len resumed.old < vec_capacity resumed.old }
    ensures { resumed.new.items ≡ resumed.old.items ++ option_to_list more }
{
    match more {
        Some(more) => resumed.push(more).unwrap(),
        None => (),
    }
}
