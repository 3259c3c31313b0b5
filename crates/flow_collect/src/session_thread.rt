//! A session's thread: what its source gives goes over its link.

ghost use Rattle.std.specs.Prelude.{◌≡◌, [], IfOk};
ghost use Rattle.flow_collect.specs.Sessions.{SessionRan};

use crate::collected::FilteredReport;
use crate::gate::Gate;
use crate::link_sink::LinkSink;
use crate::session_context::SessionContext;
use crate::session_sinks::{first_sinks, told_at_end};
use crate::shortage::Shortage;
use flow_filter::Filter;
use flow_link::Sender;
use ipfix_session::{Source, drive_in_full};
use std::alloc::Global;
use std::sync::Wait;

/// What a session's thread is given.
#[derive(Drop)]
pub struct Start<'a, S> {
    /// The session's number, counted from 0.
    pub session: usize,
    pub source: S,
    /// What the session knows beside a record.
    pub context: SessionContext<'a>,
    /// Which of its records count.
    pub filter: Option<&'a Filter>,
    pub sender: Sender,
}

/// What a session's thread hands back once all went over its link, and Last after it.
#[derive(Drop)]
pub struct EndedSession<S> {
    pub report: FilteredReport,
    pub source: S,
    pub sender: Sender,
}

/// Runs a session to its end, sends the records that count, and then Last, whatever ended it.
///
/// The fault is `OutOfMemory` if a record's context could not be appended; `NoThread` if the receiver was gone
/// before Last.
pub fn run_session<'x, S: Source + Drop, G: Gate, R: Wait>(
    rt: &'x R,
    alloc: Global,
    gate: &'x G,
    start: Start<'x, S>,
) -> Result<EndedSession<S>, Shortage>
    requires { start.sender.sent ≡ [] }
    ensures { IfOk result (SessionRan S.seen start.entry) }
{
    let Start {
        session,
        source,
        context,
        filter,
        sender,
    } = start;
    let mut source = source;
    let link = LinkSink::new(rt, gate, session, sender);
    let mut sinks = first_sinks(alloc, context, filter, link)?;
    let full = drive_in_full(alloc, &mut source, &mut sinks, context.limits());
    let sent = sinks.sink.sink.sink.sink.send_last();
    if let Some(shortage) = sinks.lost {
        return Err(shortage);
    }
    if !sent || sinks.refused > 0 {
        return Err(Shortage::NoThread);
    }
    let (report, link) = told_at_end(alloc, sinks, full);
    Ok(EndedSession {
        report,
        source,
        sender: link.sender,
    })
}
