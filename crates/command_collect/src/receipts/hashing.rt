//! Sources whose octets are hashed as they are read, and what they gave.

ghost use Rattle.std.specs.Prelude.{◌≡◌, IfOk, length, map};
ghost use Rattle.command_collect.specs.Digests.{AreDigested, StartAt};

use input_digests::{FinishedSource, HashedSource, Start};
use ipfix_session::{FullReport, Source};
use std::alloc::{AllocError, Global};
use std::collections::VecDeque;

/// The sources after their sessions, and the digests of the messages that count.
#[derive(Drop)]
pub struct FinishedSources<S> {
    pub sources: Vec<S>,
    pub digests: Vec<[u8; 32]>,
}

/// Sources of which nothing was read, each in its place, to be hashed as they are read.
pub fn hash_each<S: Source + Drop, T: Start>(
    alloc: Global,
    sources: Vec<S>,
) -> Result<Vec<HashedSource<S, T>>, AllocError>
    requires { StartAt S.seen T.texts 0 sources.items }
    ensures { IfOk result (λ all. map (λ h. h.source) all.items ≡ sources.items) }
{
    let mut waiting = VecDeque::from_vec(sources);
    let mut all = Vec::with_capacity(alloc, waiting.len())?;
    while let Some(source) = waiting.pop_front() {
        let place = all.len();
        all.push(HashedSource::new(alloc, source, place))?;
    }
    Ok(all)
}

/// The sources after their sessions, of which these are the reports, and the digests of the messages that count. It has
/// none if a source isn't in its place, or [`HashedSource::finish`] has none.
pub fn finish_each<S: Source + Drop, T: Start>(
    alloc: Global,
    sources: Vec<HashedSource<S, T>>,
    reports: &[FullReport],
) -> Result<FinishedSources<S>, AllocError>
    requires { length sources.items ≡ length reports.now }
    ensures sources { IfOk result (λ f. f.sources.items ≡ map (λ h. h.source) sources.items) }
    ensures digests { IfOk result (λ f. AreDigested S.seen T.texts f.sources reports.now f.digests) }
{
    let mut waiting = VecDeque::from_vec(sources);
    let mut finished = Vec::with_capacity(alloc, reports.len())?;
    let mut digests = Vec::with_capacity(alloc, reports.len())?;
    for full in reports {
        let Some(hashed) = waiting.pop_front() else {
            return Err(AllocError);
        };
        if hashed.place != finished.len() {
            return Err(AllocError);
        }
        let ended = hashed.finish(full)?;
        let FinishedSource { source, sha256 } = ended;
        finished.push(source)?;
        digests.push(sha256)?;
    }
    Ok(FinishedSources {
        sources: finished,
        digests,
    })
}
