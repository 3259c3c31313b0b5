//! The line that says where a plan has its fault.

ghost use Rattle.std.specs.Prelude.{◌≡◌, ◌++◌, codes};
ghost use Rattle.input_sources.specs.PlaceLines.{column_start, count_end, key_line, key_start, line_line, name_end, place_line, rule_line, text_end, toml_line, words_end};
ghost use Rattle.report_writing.specs.Writing.{Tells};

use crate::place_words::{kind_words, rule_words};
use element_registry::Elements;
use flow_plan::{PlanPlace, PlanTextError};
use flow_table::PlanFault;
use report_writing::{WriteLines, write_octets, write_quoted};
use std::io;

/// Writes the line that says where a plan has its fault: the line of the file, or the key and what is
/// wrong with it, or what a plan with these elements allows there. For want of memory there is none.
pub fn write_place<W: WriteLines>(
    elements: &Elements,
    error: &PlanTextError,
    out: &mut W,
) -> io::Result<()>
    ensures { Tells W.lines out.old out.new result (place_line elements.now error.now) }
{
    match error {
        PlanTextError::NotUtf8 { line } => write_line(*line, "not UTF-8", out),
        PlanTextError::NotToml {
            line,
            column,
            message,
            ..
        } => write_toml_line(*line, *column, message.as_str(), out),
        PlanTextError::UnknownField { key } => write_key_line(key.as_str(), "unknown", out),
        PlanTextError::Missing { key } => write_key_line(key.name(), "missing", out),
        PlanTextError::WrongKind { key } => write_key_line(key.name(), kind_words(*key), out),
        PlanTextError::UnknownElement { key, text } => {
            write_key(key.name(), out)?;
            write_name_end(text.as_str(), out)
        }
        PlanTextError::Plan { fault, place } => write_rule(elements, *fault, place, out),
        PlanTextError::OutOfMemory => Ok(()),
    }
}

#[tactic(auto, unfolding(crate::specs::PlaceLines::line_line))]
fn write_line<W: WriteLines>(line: usize, words: &str, out: &mut W) -> io::Result<()>
    ensures { Tells W.lines out.old out.new result (line_line line words.now) }
{
    writeln!(out, "collectd: plan: line {line}: {words}")
}

// The place in a file, and what the parser of TOML says of it.
fn write_toml_line<W: WriteLines>(
    line: usize,
    column: usize,
    message: &str,
    out: &mut W,
) -> io::Result<()>
    ensures { Tells W.lines out.old out.new result (toml_line line column message.now) }
{
    write_column_start(line, column, out)?;
    write_octets(message.as_bytes(), out)?;
    writeln!(out)
}

#[tactic(auto, unfolding(crate::specs::PlaceLines::column_start))]
fn write_column_start<W: WriteLines>(line: usize, column: usize, out: &mut W) -> io::Result<()>
    ensures { Tells W.lines out.old out.new result (column_start line column) }
{
    write!(out, "collectd: plan: line {line}, column {column}: ")
}

/// Writes the line of a key, and what is wrong with it.
pub fn write_key_line<W: WriteLines>(key: &str, words: &str, out: &mut W) -> io::Result<()>
    ensures { Tells W.lines out.old out.new result (key_line key.now words.now) }
{
    write_key(key, out)?;
    write_words_end(words, out)
}

fn write_key<W: WriteLines>(key: &str, out: &mut W) -> io::Result<()>
    ensures { Tells W.lines out.old out.new result (key_start key.now) }
{
    write!(out, "collectd: plan: key ")?;
    write_quoted(key, out)
}

/// Writes what is wrong, at the end of a line.
#[tactic(auto, unfolding(crate::specs::PlaceLines::words_end))]
pub fn write_words_end<W: WriteLines>(words: &str, out: &mut W) -> io::Result<()>
    ensures { Tells W.lines out.old out.new result (words_end words.now) }
{
    writeln!(out, ": {words}")
}

/// Writes at the end of a line that no element has a name.
#[tactic(auto, unfolding(crate::specs::PlaceLines::name_end))]
pub fn write_name_end<W: WriteLines>(text: &str, out: &mut W) -> io::Result<()>
    ensures { Tells W.lines out.old out.new result (name_end text.now) }
{
    write!(out, ": no element is named ")?;
    write_quoted(text, out)?;
    writeln!(out)
}

// What gives a plan the fault, and what is allowed.
fn write_rule<W: WriteLines>(
    elements: &Elements,
    fault: PlanFault,
    place: &PlanPlace,
    out: &mut W,
) -> io::Result<()>
    ensures { Tells W.lines out.old out.new result
        (rule_line elements.now fault place.now) }
{
    let words = rule_words(elements, fault);
    match place {
        PlanPlace::Value { key } => write_key_line(key.name(), words, out),
        PlanPlace::Count { key, count } => {
            write_key(key.name(), out)?;
            write_count_end(*count, words, out)
        }
        PlanPlace::Text { key, text } => {
            write_key(key.name(), out)?;
            write_text_end(text.as_str(), words, out)
        }
    }
}

#[tactic(auto, unfolding(crate::specs::PlaceLines::count_end))]
fn write_count_end<W: WriteLines>(count: usize, words: &str, out: &mut W) -> io::Result<()>
    ensures { Tells W.lines out.old out.new result (count_end count words.now) }
{
    writeln!(out, ": {count} elements, {words}")
}

fn write_text_end<W: WriteLines>(text: &str, words: &str, out: &mut W) -> io::Result<()>
    ensures { Tells W.lines out.old out.new result (text_end text.now words.now) }
{
    write!(out, ": ")?;
    write_quoted(text, out)?;
    write_end(words, out)
}

fn write_end<W: WriteLines>(words: &str, out: &mut W) -> io::Result<()>
    ensures { Tells W.lines out.old out.new result (words.now ++ codes "\n") }
{
    writeln!(out, "{words}")
}
