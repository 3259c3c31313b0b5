//! Opening files, one after another.

ghost use Rattle.std.specs.Prelude.{◌≡◌, map, IfErr, IfOk};
ghost use Rattle.input_sources.specs.Had.{ComesNext, HoldBefore, IsReasonOf, IsUnread, PathsAreOpened};
ghost use Rattle.input_sources.specs.Origins.{AreFiles, IsFileNamed};
ghost use Rattle.input_sources.specs.InputsTold.{opened_lines, StopsAt};
ghost use Rattle.report_writing.specs.Lines.{StaysFailed};
ghost use Rattle.report_writing.specs.Told.{AreToldTo};

use crate::opening::{OpenSource, Opened};
use crate::unread_sources::UnreadSources;
use crate::with_progress::WithProgress;
use ipfix_session::Source;
use report_writing::{Origin, Reason, Verbosity, WriteLines, write_opened};
use std::alloc::Global;
use std::io::Write;
use std::rt::Clock;

/// Files that were opened, and the origins of their sessions.
#[derive(Drop)]
pub struct OpenedAll<'a, S: Source + Drop> {
    pub sources: UnreadSources<S>,
    pub origins: Vec<Origin<'a>>,
}

/// A path that can't be opened.
#[derive(Clone, Copy)]
pub struct NotOpened<'a> {
    pub path: &'a str,
    pub reason: Reason,
}

/// The sources of the paths, in order, or the first path that can't be opened. `err` has a line for each
/// that was opened, if `verbosity` is verbose; a fault of `err` is passed over.
pub fn open_all<
    'r,
    'a,
    S: Source + Drop,
    O: OpenSource<S>,
    P: Write + Copy + Drop,
    E: WriteLines,
    R: Clock,
>(
    rt: &'r R,
    alloc: Global,
    files: &mut O,
    paths: &[&'a str],
    progress: Option<P>,
    verbosity: Verbosity,
    err: &mut E,
) -> Result<OpenedAll<'a, WithProgress<'r, S, R, P>>, NotOpened<'a>>
    // Each path was opened once, and nothing else.
    ensures opened { IfOk result (λ all. PathsAreOpened O.opens O.coming files.old files.new
        paths.now all.sources) }
    // What is told of each is its path and its size.
    ensures named { IfOk result
        (λ all. AreFiles (O.sizes files.old) paths.now all.origins.items) }
    ensures told { IfOk result (λ all. AreToldTo E.lines err.old err.new
        (opened_lines verbosity all.origins.items)) }
    ensures stops { IfErr result
        (λ stopped. StopsAt (O.sizes files.old) (map (λ path. path.now) paths.now) verbosity
        (AreToldTo E.lines err.old err.new) stopped.path.now) }
    ensures reason { IfErr result
        (λ last. IsReasonOf (O.refuses files.old last.path.now) last.reason) }
    ensures kept { StaysFailed E.lines err.old err.new }
{
    let mut sources = UnreadSources::new(alloc);
    let mut origins = Vec::new(alloc);
    for (index, path) in paths.iter().enumerate() {
        let session = index + 1;
        let (source, origin) = open_watched(rt, alloc, files, session, *path, progress)?;
        let Ok(()) = sources.push(source) else {
            return Err(without_memory(*path));
        };
        let Ok(()) = origins.push(origin) else {
            return Err(without_memory(*path));
        };
        let _ = write_opened(verbosity, session, &origin, err);
    }
    Ok(OpenedAll { sources, origins })
}

fn without_memory<'a>(path: &'a str) -> NotOpened<'a>
    ensures path { result.path.now ≡ path.now }
    ensures reason { result.reason ≡ Reason.OutOfMemory }
{
    NotOpened {
        path,
        reason: Reason::OutOfMemory,
    }
}

// The source of a path, for the session of this number, counted from 1, and its origin.
fn open_watched<'r, 'a, S: Source + Drop, O: OpenSource<S>, P: Write + Copy + Drop, R: Clock>(
    rt: &'r R,
    alloc: Global,
    files: &mut O,
    session: usize,
    path: &'a str,
    progress: Option<P>,
) -> Result<(WithProgress<'r, S, R, P>, Origin<'a>), NotOpened<'a>>
    ensures opened { IfOk result (λ had. O.opens files.old path.now had.0) }
    ensures came { IfOk result
        (λ had. ComesNext (O.coming files.old) (O.coming files.new) had.0) }
    ensures same { HoldBefore (O.opens files.old) (O.opens files.new) }
    ensures same_size { HoldBefore (O.sizes files.old) (O.sizes files.new) }
    ensures same_reason { HoldBefore (O.refuses files.old) (O.refuses files.new) }
    ensures stopped { IfErr result (λ stopped. stopped.path.now ≡ path.now) }
    ensures reason { IfErr result (λ stopped. O.refuses files.old path.now stopped.reason) }
    ensures unread { IfOk result (λ had. IsUnread S.seen had.0) }
    ensures named { IfOk result (λ had. IsFileNamed (O.sizes files.old path.now) path.now had.1) }
{
    match files.open_source(path) {
        Ok(Opened { source, size }) => {
            let origin = Origin::File {
                name: path,
                size: size.map(|octets| octets.get()),
            };
            let watched = WithProgress::new(alloc, rt, session, source, size, progress);
            Ok((watched, origin))
        }
        Err(reason) => Err(NotOpened { path, reason }),
    }
}
