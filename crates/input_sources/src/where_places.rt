//! The line that says where a plan's conditions have their fault.

ghost use Rattle.std.specs.Prelude.{◌++◌, codes};
ghost use Rattle.input_sources.specs.PlaceLines.{name_end, words_end};
ghost use Rattle.input_sources.specs.WhereLines.{count_end, text_end, where_end, where_key, where_line, where_start};
ghost use Rattle.report_writing.specs.Writing.{Tells};

use crate::places::{write_name_end, write_words_end};
use flow_plan_fields::{WhereFault, side_key};
use report_writing::{WriteLines, write_quoted};
use std::io;

/// Writes which `[[where]]` has the fault, and what is wrong with it.
pub fn write_where<W: WriteLines>(place: usize, fault: &WhereFault, out: &mut W) -> io::Result<()>
    ensures { Tells W.lines out.old out.new result
        (where_line place fault.now) }
{
    write_where_start(place, out)?;
    write_where_end(fault, out)
}

#[tactic(auto, unfolding(crate::specs::WhereLines::where_start))]
fn write_where_start<W: WriteLines>(place: usize, out: &mut W) -> io::Result<()>
    ensures { Tells W.lines out.old out.new result (where_start place) }
{
    write!(out, "collectd: plan: where {place}")
}

fn write_where_end<W: WriteLines>(fault: &WhereFault, out: &mut W) -> io::Result<()>
    ensures { Tells W.lines out.old out.new result (where_end fault.now) }
{
    match fault {
        WhereFault::NoTable => write_words_end("not a table", out),
        WhereFault::UnknownKey { key } => write_key_words(key.as_str(), "unknown", out),
        WhereFault::NoElement => write_key_words("element", "missing, or not a text", out),
        WhereFault::UnknownElement { text } => write_key_name(text.as_str(), out),
        WhereFault::NoSide => write_words_end("neither \"in\" nor \"not_in\"", out),
        WhereFault::NoTexts { side } => write_key_words(
            side_key(*side),
            "not an array of texts",
            out,
        ),
        WhereFault::Kind => write_key_words(
            "element",
            "only elements known as unsigned numbers, booleans or addresses (IPv4, IPv6) may have conditions",
            out,
        ),
        WhereFault::Count { side, count } => write_key_count(side_key(*side), *count, out),
        WhereFault::Text { side, text } => write_key_text(side_key(*side), text.as_str(), out),
        WhereFault::OutOfMemory => write_words_end("out of memory", out),
    }
}

// Writes a key, and what is wrong with it.
fn write_key_words<W: WriteLines>(key: &str, words: &str, out: &mut W) -> io::Result<()>
    ensures { Tells W.lines out.old out.new result
        (where_key key.now ++ words_end words.now) }
{
    write_key(key, out)?;
    write_words_end(words, out)
}

fn write_key<W: WriteLines>(key: &str, out: &mut W) -> io::Result<()>
    ensures { Tells W.lines out.old out.new result (where_key key.now) }
{
    write!(out, ": key ")?;
    write_quoted(key, out)
}

fn write_key_name<W: WriteLines>(text: &str, out: &mut W) -> io::Result<()>
    ensures { Tells W.lines out.old out.new result
        (where_key (codes "element") ++ name_end text.now) }
{
    write_key("element", out)?;
    write_name_end(text, out)
}

fn write_key_count<W: WriteLines>(key: &str, count: usize, out: &mut W) -> io::Result<()>
    ensures { Tells W.lines out.old out.new result
        (where_key key.now ++ count_end count) }
{
    write_key(key, out)?;
    write_count_end(count, out)
}

#[tactic(auto, unfolding(crate::specs::WhereLines::count_end))]
fn write_count_end<W: WriteLines>(count: usize, out: &mut W) -> io::Result<()>
    ensures { Tells W.lines out.old out.new result (count_end count) }
{
    writeln!(out, ": {count} texts, must be 1 to 64")
}

fn write_key_text<W: WriteLines>(key: &str, text: &str, out: &mut W) -> io::Result<()>
    ensures { Tells W.lines out.old out.new result
        (where_key key.now ++ text_end text.now) }
{
    write_key(key, out)?;
    write_text_end(text, out)
}

fn write_text_end<W: WriteLines>(text: &str, out: &mut W) -> io::Result<()>
    ensures { Tells W.lines out.old out.new result (text_end text.now) }
{
    write!(out, ": ")?;
    write_quoted(text, out)?;
    write_no_values(out)
}

fn write_no_values<W: WriteLines>(out: &mut W) -> io::Result<()>
    ensures { Tells W.lines out.old out.new result
        (codes ": no values of the element\n") }
{
    writeln!(out, ": no values of the element")
}
