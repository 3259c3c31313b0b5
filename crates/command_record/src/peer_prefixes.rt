//! Which peers may send, by the words of `--from`.

ghost use Rattle.std.specs.Prelude.{◌≡◌, IfErr, IfOk, OnErr, OnOk};
ghost use Rattle.report_writing.specs.Writing.{Tells};
ghost use Rattle.command_record.specs.PeerPrefixes.{ArePrefixes, IsFilterOf, IsWordFault, TellsWhy, bits_after_line, fault_line, no_prefix_line, prefix_line};

use network_prefixes::{PeerFilter, Prefix, PrefixFault};
use report_writing::{Status, WriteLines};
use std::alloc::Global;
use std::io;

/// Why words make no prefixes.
#[derive(Clone, Copy)]
pub(crate) enum WordFault<'w> {
    /// The first word that is no prefix, and why it is none.
    NoPrefix(&'w str, PrefixFault),
    OutOfMemory,
}

/// The prefixes that peers may have, one for each word. If a word is none, `err` has a line of the first that is none.
pub(crate) fn filter_of<E: WriteLines>(
    alloc: Global,
    words: &[&str],
    err: &mut E,
) -> Result<PeerFilter, Status>
    ensures prefixes { IfOk result (IsFilterOf words.now) }
    ensures silent { OnOk result (err.new ≡ err.old) }
    ensures refused { IfErr result (λ status. status ≡ Status.NotOpened) }
    ensures told { OnErr result (TellsWhy E.lines err.old err.new words.now) }
{
    match prefixes_in(alloc, words) {
        Ok(prefixes) => Ok(PeerFilter { prefixes }),
        Err(fault) => {
            let _ = write_fault(&fault, err);
            Err(Status::NotOpened)
        }
    }
}

// The prefix that each word spells, or why not all do.
fn prefixes_in<'w>(alloc: Global, words: &[&'w str]) -> Result<Vec<Prefix>, WordFault<'w>>
    ensures ok { IfOk result (λ prefixes. ArePrefixes words.now prefixes.items) }
    ensures err { IfErr result (IsWordFault words.now) }
{
    let mut prefixes = Vec::new(alloc);
    for word in words {
        match Prefix::parse(*word) {
            Ok(prefix) => {
                if prefixes.push(prefix).is_err() {
                    return Err(WordFault::OutOfMemory);
                }
            }
            Err(fault) => return Err(WordFault::NoPrefix(*word, fault)),
        }
    }
    Ok(prefixes)
}

fn write_fault<W: WriteLines>(fault: &WordFault, out: &mut W) -> io::Result<()>
    ensures { Tells W.lines out.old out.new result (fault_line fault.now) }
{
    match fault {
        WordFault::NoPrefix(word, why) => write_prefix(*word, *why, out),
        WordFault::OutOfMemory => out.write_all(b"error: out of memory\n"),
    }
}

// Writes why a word is no prefix.
fn write_prefix<W: WriteLines>(word: &str, fault: PrefixFault, out: &mut W) -> io::Result<()>
    ensures { Tells W.lines out.old out.new result (prefix_line word.now fault) }
{
    match fault {
        PrefixFault::NotAPrefix => write_no_prefix(word, out),
        PrefixFault::BitsAfter => write_bits_after(word, out),
    }
}

#[tactic(auto, unfolding(crate::specs::PeerPrefixes::no_prefix_line))]
fn write_no_prefix<W: WriteLines>(word: &str, out: &mut W) -> io::Result<()>
    ensures { Tells W.lines out.old out.new result (no_prefix_line word.now) }
{
    writeln!(out, "error: '{word}' of --from is no address and no prefix")
}

#[tactic(auto, unfolding(crate::specs::PeerPrefixes::bits_after_line))]
fn write_bits_after<W: WriteLines>(word: &str, out: &mut W) -> io::Result<()>
    ensures { Tells W.lines out.old out.new result (bits_after_line word.now) }
{
    writeln!(
        out,
        "error: '{word}' of --from has bits after its prefix that are not 0"
    )
}
