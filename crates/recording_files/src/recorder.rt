//! What a file of a session has for each message.

ghost use Rattle.std.specs.Prelude.{◌≡◌, ◌≢◌, ◌++◌, [], Ok, OnOk, IfOk, IfErr, MatchBool, true};
ghost use Rattle.ipfix_message.specs.Domains.{message_header};
ghost use Rattle.recording_files.specs.Heads as head;
ghost use Rattle.recording_files.specs.Heads.{due_in};
ghost use Rattle.recording_files.specs.Histories.{OnOkFor};
ghost use Rattle.recording_files.specs.KeptOptions.{AllKept};
ghost use Rattle.recording_files.specs.Preambles.{IsStamp};
ghost use Rattle.recording_files.specs.Recorders.{FailsOn, ForKept, ForMessages, Heading, Keeps, KeepsWithin, Leading, RecordsWithin, due_for, with_entry};

use crate::head::append_head;
use crate::kept_options::{KeptOptions, keep_options};
use crate::message_count::MessageCount;
use crate::preamble::{append_bare_message, append_preamble};
use indexmap::IndexMap;
use ipfix_message::{DataRecord, Domains, MessageFault, Stamp};
use ipfix_wire::Header;
use std::alloc::{AllocError, Global};
use std::marker::Model;

/// What is kept of a session while it is recorded: its domains, what their templates may count, the sequence number that is due
/// in each, which of them the file has, and the last options records that told when the exporter was started or how it samples.
#[derive(Drop)]
pub struct Recorder {
    domains: Domains,
    limit: Option<u64>,
    due: IndexMap<u32, Option<u32>>,
    here: IndexMap<u32, bool>,
    kept: Vec<KeptOptions>,
    body: Vec<u8>,
}

impl Model for Recorder {
    ghost use Rattle.recording_files.specs.Recorders.{State};

    ghost Value = { State };

    ghost view = { λ r. record {
      domains = r.domains;
      limit = r.limit;
      due = r.due.entries;
      here = r.here.entries;
      kept = r.kept.items;
    } };
}

// The stamp of a message with this header.
fn stamp_at(header: Header) -> Stamp
    ensures is { result ≡ head.stamp_at header }
    ensures fits { IsStamp result }
{
    Stamp {
        export_time: header.export_time,
        sequence: header.sequence,
        domain: header.domain,
    }
}

impl Recorder {
    /// The start of a session's first file, without a limit of its templates.
    pub fn new(alloc: Global) -> Self
        ensures { Keeps result [] [] }
    {
        Recorder::with_limit(alloc, None)
    }

    /// The start of the first file of a session whose templates may count so much together, if they have a limit: as
    /// [`SessionLimits`](ipfix_session::SessionLimits) says.
    pub fn with_limit(alloc: Global, limit: Option<u64>) -> Self
        ensures { KeepsWithin limit result [] [] }
    {
        Recorder {
            domains: Domains::new(alloc),
            limit,
            due: IndexMap::new(alloc),
            here: IndexMap::new(alloc),
            kept: Vec::new(alloc),
            body: Vec::new(alloc),
        }
    }

    /// Begins the session's next file.
    pub fn turn(&mut self)
        ensures { ForKept self.old
            (λ limit before here. KeepsWithin limit self.new (before ++ here) []) }
    {
        self.here.clear();
    }

    /// Whether a message was recorded in this file.
    pub fn has_begun(&self) -> bool
        ensures { ForMessages self.now (λ before here. MatchBool result (here ≢ []) (here ≡ [])) }
    {
        !self.here.is_empty()
    }

    /// The domains of the session, with the templates that are in force in each.
    pub fn domains(&self) -> &Domains
        ensures { result.now ≡ self.now.domains }
    {
        &self.domains
    }

    /// The sequence number that is due in a domain; `None` if none is known there.
    pub fn due(&self, domain: u32) -> Option<u32>
        ensures { ForMessages self.now (λ before here. result ≡ due_in domain (before ++ here)) }
    {
        self.due.get(&domain).copied().flatten()
    }

    // Appends what stands at the head of a file, if the message is its first.
    fn append_head(&mut self, header: &Header, out: &mut Vec<u8>) -> Result<(), AllocError>
        ensures same { self.new ≡ self.old }
        ensures head { OnOk result
            (ForMessages self.old (Heading header.now out.old.items out.new.items)) }
    {
        if !self.here.is_empty() {
            return Ok(());
        }
        let start = stamp_at(*header);
        let body = &mut self.body;
        append_head(&self.domains, &self.due, start, &self.kept, body, out)
    }

    // Appends what stands before a message that begins its domain again.
    fn append_lead(&mut self, header: &Header, out: &mut Vec<u8>) -> Result<(), AllocError>
        ensures same { self.new ≡ self.old }
        ensures lead { OnOk result
            (ForMessages self.old (Leading header.now out.old.items out.new.items)) }
    {
        let Some(due) = self.due.get(&header.domain).copied() else {
            return Ok(());
        };
        if self.here.contains_key(&header.domain) {
            return Ok(());
        }
        let stamp = Stamp {
            export_time: header.export_time,
            sequence: due.unwrap_or(header.sequence),
            domain: header.domain,
        };
        match self.domains.templates(header.domain) {
            Some(templates) => append_preamble(stamp, templates, &mut self.body, out),
            None => append_bare_message(stamp, out),
        }
    }

    // Keeps what a message says of its domain.
    fn keep(&mut self, header: &Header, records: usize, unknown_sets: u64) -> Result<(), AllocError>
        ensures domains { self.new.domains ≡ self.old.domains }
        ensures limit { self.new.limit ≡ self.old.limit }
        ensures kept { self.new.kept ≡ self.old.kept }
        ensures due { OnOk result (self.new.due ≡ with_entry self.old.due
            header.now.domain (due_for header.now records unknown_sets)) }
        ensures in_file { OnOk result (self.new.here
            ≡ with_entry self.old.here header.now.domain true) }
    {
        let due = if unknown_sets == 0 {
            Some(header.sequence.wrapping_add((records % (1 << 32)) as u32))
        } else {
            None
        };
        if self.due.insert(header.domain, due).is_err()
            || self.here.insert(header.domain, true).is_err()
        {
            return Err(AllocError);
        }
        Ok(())
    }

    // Keeps the options records of a message, after which the domains are these.
    fn keep_options(&mut self, alloc: Global, records: &[DataRecord]) -> Result<(), AllocError>
        ensures others { self.new ≡ record self.old { kept = self.new.kept } }
        ensures kept { OnOkFor self.old.domains result
            (AllKept records.now self.old.kept self.new.kept) }
    {
        keep_options(alloc, &self.domains, records, &mut self.kept)
    }

    /// Takes a message, whose header was read, and makes what a file has before it: the options records that are kept, if the
    /// message is the file's first; and its domain's templates, if this file has none of its messages and an earlier file has.
    /// What stood in `lead` before is gone. It answers what the message adds to the counts.
    ///
    /// The fault is the message's, or `OutOfMemory`: also `TooManyFields`, if after it the templates would count more than their
    /// limit, whatever is sent. After a fault the recorder is of no use.
    pub fn take_message(
        &mut self,
        alloc: Global,
        header: &Header,
        message: &[u8],
        lead: &mut Vec<u8>,
    ) -> Result<MessageCount, MessageFault>
        requires { message_header message.now ≡ Ok header.now }
        ensures records { ForKept self.old (λ limit before here.
            IfOk result (λ count. RecordsWithin limit before here
            self.new message.now (lead.new.items ++ message.now) count)) }
        ensures fails { IfErr result (λ fault. ForKept self.old (FailsOn fault message.now)) }
    {
        lead.clear();
        self.append_head(header, lead)?;
        self.append_lead(header, lead)?;
        let decoded = match self
            .domains
            .decode_within(alloc, header, message, self.limit)
        {
            Ok(decoded) => decoded,
            Err(fault) => return Err(fault),
        };
        self.keep(header, decoded.records.len(), decoded.unknown_sets)?;
        self.keep_options(alloc, &decoded.records)?;
        Ok(MessageCount {
            header: *header,
            records: decoded.records.len() as u64,
            passed_over: decoded.passed_over(),
        })
    }
}
