//! Both ends of each link, in one thread again.

ghost use Rattle.std.specs.Prelude.{◌≡◌, ◌∷◌, ◌++◌, [], All, IfOk, OnOk, map};
ghost use Rattle.flow_collect.specs.Dealt.{IsPaired};
ghost use Rattle.flow_collect.specs.Finished.{ended_link, SettledAll, SettlesOne};

use super::Parts;
use crate::collected::FilteredReport;
use crate::session_thread::EndedSession;
use crate::shortage::Shortage;
use crate::worker::LinkEnd;
use flow_link::{Settled, settle};
use std::alloc::{AllocError, Global};
use std::collections::VecDeque;

/// Settles each session's link. The ends stand in the order of the sessions.
pub fn settle_all<S: Drop>(
    alloc: Global,
    sessions: VecDeque<EndedSession<S>>,
    link_ends: VecDeque<LinkEnd>,
) -> Result<Parts<S>, Shortage>
    requires { All (IsPaired (map ended_link sessions.items)) link_ends.items }
    ensures { IfOk result (SettledAll sessions.items link_ends.items) }
{
    let mut sessions = sessions;
    let mut link_ends = link_ends;
    let mut parts = new_parts(alloc);
    for number in 0..sessions.len() {
        let Some(session) = sessions.pop_front() else {
            return Err(Shortage::NoThread);
        };
        let Some(link_end) = link_ends.pop_front() else {
            return Err(Shortage::NoThread);
        };
        if link_end.session != number {
            return Err(Shortage::NoThread);
        }
        settle_one(alloc, &mut parts, session, link_end)?;
    }
    if !sessions.is_empty() || !link_ends.is_empty() {
        return Err(Shortage::NoThread);
    }
    Ok(parts)
}

fn new_parts<S>(alloc: Global) -> Parts<S>
    ensures { (result.sessions.items ≡ []) × (result.links.items ≡ [])
        × (result.sources.items ≡ []) }
{
    Parts {
        sessions: Vec::new(alloc),
        links: Vec::new(alloc),
        sources: Vec::new(alloc),
    }
}

fn settle_one<S: Drop>(
    alloc: Global,
    parts: &mut Parts<S>,
    session: EndedSession<S>,
    link_end: LinkEnd,
) -> Result<(), Shortage>
    requires { ended_link session ≡ link_end.receiver.link }
    ensures { OnOk result (SettlesOne session link_end parts.old parts.new) }
{
    let EndedSession {
        report,
        source,
        sender,
    } = session;
    let LinkEnd { receiver, .. } = link_end;
    let Ok(link) = settle(alloc, sender, receiver) else {
        return Err(Shortage::OutOfMemory);
    };
    push_all(parts, report, link, source)?;
    Ok(())
}

fn push_all<S: Drop>(
    parts: &mut Parts<S>,
    report: FilteredReport,
    link: Settled,
    source: S,
) -> Result<(), AllocError>
    ensures reports { OnOk result (parts.new.sessions.items
        ≡ parts.old.sessions.items ++ report ∷ []) }
    ensures links { OnOk result (parts.new.links.items ≡ parts.old.links.items ++ link ∷ []) }
    ensures sources { OnOk result (parts.new.sources.items
        ≡ parts.old.sources.items ++ source ∷ []) }
{
    parts.sessions.push(report)?;
    parts.links.push(link)?;
    parts.sources.push(source)?;
    Ok(())
}
