//! The line that says what an engine and a number of sessions may be.

ghost use Rattle.std.specs.Prelude.{◌≡◌};
ghost use Rattle.report_writing.specs.OpeningLines.{if_verbose};
ghost use Rattle.command_collect.specs.Limits.{limit_line, limit_lines, limit_text, limit_words as words_of};
ghost use Rattle.report_writing.specs.Writing.{Tells};

use crate::engine::Engine;
use flow_collect::CollectFault;
use report_writing::{Verbosity, WriteLines};
use std::io;

/// Writes what is allowed, after the fault, if `verbosity` is verbose and a run with this engine and so
/// many sessions is refused for one of them. Otherwise nothing is written.
pub fn write_limit<W: WriteLines>(
    verbosity: Verbosity,
    engine: Engine,
    sessions: usize,
    out: &mut W,
) -> io::Result<()>
    ensures { Tells W.lines out.old out.new result
        (limit_lines verbosity engine sessions) }
{
    match engine.refusal(sessions) {
        Some(fault) => write_if_verbose(verbosity, engine, fault, out),
        None => Ok(()),
    }
}

fn write_if_verbose<W: WriteLines>(
    verbosity: Verbosity,
    engine: Engine,
    fault: CollectFault,
    out: &mut W,
) -> io::Result<()>
    ensures { Tells W.lines out.old out.new result
        (if_verbose verbosity (limit_line engine fault)) }
{
    if verbosity.verbose {
        let words = limit_words(engine, fault);
        write_words(fault.number(), fault.name(), words, out)
    } else {
        Ok(())
    }
}

#[tactic(auto, unfolding(crate::specs::Limits::limit_text))]
fn write_words<W: WriteLines>(number: u8, name: &str, words: &str, out: &mut W) -> io::Result<()>
    ensures { Tells W.lines out.old out.new result
        (limit_text number name.now words.now) }
{
    writeln!(out, "collectd: collect: fault {number} {name}{words}")
}

// What is allowed where it has this fault.
fn limit_words(engine: Engine, fault: CollectFault) -> &'static str
    ensures { result.now ≡ words_of engine fault }
{
    match fault {
        CollectFault::Workers => ": --workers must be 1 to 16",
        CollectFault::Sessions => sessions_words(engine),
        CollectFault::Link => ": --ring must be 1 to 65536",
        CollectFault::NoThread
        | CollectFault::OutOfMemory
        | CollectFault::SumTooLarge
        | CollectFault::Sampled => "",
    }
}

// How many sessions there may be.
fn sessions_words(engine: Engine) -> &'static str
    ensures { result.now ≡ words_of engine CollectFault.Sessions }
{
    match engine {
        Engine::Links(_) => ": must be 1 to 64",
        Engine::Lots(_) => ": must be 1 or more",
    }
}
