//! The lines of what records lack.

ghost use Rattle.std.specs.Prelude.{◌≡◌, ◌≤◌, false, length};
ghost use Rattle.element_registry.specs.Registries.{element_name};
ghost use Rattle.ipfix_elements.specs.Names.{numbered_text};
ghost use Rattle.flow_export.specs.CsvText.{key_name, prefix_text};
ghost use Rattle.report_sessions.specs.MissingLines.{count_end, counter_text, lack_line, lack_lines, missing_lines, missing_told, time_text, unkeyed_text};
ghost use Rattle.report_writing.specs.Writing.{Tells};

use element_registry::Elements;
use flow_table::{Key, Missing, Plan, context_name};
use ipfix_wire::ElementId;
use report_writing::{Verbosity, WriteLines};
use std::io;

/// Writes what records lack, if `verbosity` is verbose or strict: a line for each counter of the plan that
/// used records lack, with how many do; then one for untimed records without a start and one for those
/// without an end; then one for each key of the plan that is the first which unkeyed records lack. A line
/// whose number is 0 is left out. Counters and keys have the names that `elements` gives them, and keys of context their own.
pub fn write_missing<W: WriteLines>(
    verbosity: Verbosity,
    elements: &Elements,
    plan: &Plan,
    missing: &Missing,
    out: &mut W,
) -> io::Result<()>
    ensures told { Tells W.lines out.old out.new result
        (missing_told verbosity elements.now plan.now missing.now) }
    // Without these options nothing is written.
    ensures plain { verbosity.verbose ≡ false → verbosity.strict ≡ false → out.new ≡ out.old }
{
    if verbosity.verbose || verbosity.strict {
        write_lines(elements, plan, missing, out)
    } else {
        Ok(())
    }
}

fn write_lines<W: WriteLines>(
    elements: &Elements,
    plan: &Plan,
    missing: &Missing,
    out: &mut W,
) -> io::Result<()>
    ensures { Tells W.lines out.old out.new result
        (missing_lines elements.now plan.now missing.now) }
{
    write_each(elements, plan.counters(), &missing.counters, out)?;
    write_line(elements, &Time { name: "start" }, missing.start, out)?;
    write_line(elements, &Time { name: "end" }, missing.end, out)?;
    write_each(elements, plan.keys(), &missing.keys, out)
}

/// What records can lack.
trait Lack {
    ghost use Rattle.std.specs.Prelude.{ℕ, List};
    ghost use Rattle.element_registry.specs.Registries.{Known};
    ghost use Rattle.report_writing.specs.Writing.{Tells};

    /// What is said of records that lack it, before how many they are.
    ghost words: { List Known → Self → List ℕ };

    /// Writes that.
    fn write_words<W: WriteLines>(&self, elements: &Elements, out: &mut W) -> io::Result<()>
        ensures { Tells W.lines out.old out.new result
            (words elements.now self.now) };
}

/// A counter, which used records can lack.
impl Lack for ElementId {
    ghost words = { counter_text };

    fn write_words<W: WriteLines>(&self, elements: &Elements, out: &mut W) -> io::Result<()> {
        out.write_all("collectd: records: without ".as_bytes())?;
        write_element(elements, *self, out)
    }
}

/// The start or the end of a flow, which untimed records lack.
#[derive(Clone, Copy)]
struct Time {
    name: &'static str,
}

impl Lack for Time {
    ghost words = { λ _ time. time_text time.name.now };

    #[tactic(auto, unfolding(crate::specs::MissingLines::time_text))]
    fn write_words<W: WriteLines>(&self, _elements: &Elements, out: &mut W) -> io::Result<()> {
        let name = self.name;
        write!(out, "collectd: records: untimed without {name}")
    }
}

/// A key, which unkeyed records lack.
impl Lack for Key {
    ghost words = { unkeyed_text };

    fn write_words<W: WriteLines>(&self, elements: &Elements, out: &mut W) -> io::Result<()> {
        out.write_all("collectd: records: unkeyed without ".as_bytes())?;
        write_key_name(elements, self.element, out)?;
        write_prefix(self.prefix, out)
    }
}

// Writes the lines of what records can lack, in order.
fn write_each<L: Lack, W: WriteLines>(
    elements: &Elements,
    all: &[L],
    counts: &[u64],
    out: &mut W,
) -> io::Result<()>
    requires { length all.now ≤ length counts.now }
    ensures { Tells W.lines out.old out.new result
        (lack_lines (L.words elements.now) all.now counts.now) }
{
    for (place, lack) in all.iter().enumerate() {
        write_line(elements, lack, counts[place], out)?;
    }
    Ok(())
}

// Writes the line of what so many records lack, if there are any.
fn write_line<L: Lack, W: WriteLines>(
    elements: &Elements,
    lack: &L,
    count: u64,
    out: &mut W,
) -> io::Result<()>
    ensures { Tells W.lines out.old out.new result
        (lack_line (L.words elements.now lack.now) count) }
{
    if count == 0 {
        Ok(())
    } else {
        lack.write_words(elements, out)?;
        write_count_end(count, out)
    }
}

// Writes the name of a key's element: an element of context has its own, whatever files say.
fn write_key_name<W: WriteLines>(
    elements: &Elements,
    element: ElementId,
    out: &mut W,
) -> io::Result<()>
    ensures { Tells W.lines out.old out.new result (key_name elements.now element) }
{
    match context_name(element) {
        Some(name) => out.write_all(name.as_bytes()),
        None => write_element(elements, element, out),
    }
}

// Writes an element's name, or its numbers.
fn write_element<W: WriteLines>(
    elements: &Elements,
    element: ElementId,
    out: &mut W,
) -> io::Result<()>
    ensures { Tells W.lines out.old out.new result (element_name elements.now element) }
{
    match elements.name_of(element) {
        Some(name) => out.write_all(name.as_bytes()),
        None => write_numbers(element, out),
    }
}

/// Writes the numbers of an element, as a dump spells one that has no name.
pub fn write_numbers<W: WriteLines>(element: ElementId, out: &mut W) -> io::Result<()>
    ensures { Tells W.lines out.old out.new result (numbered_text element) }
{
    let pen = element.pen;
    let number = element.number;
    write!(out, "e{pen}.{number}")
}

fn write_prefix<W: WriteLines>(prefix: Option<u8>, out: &mut W) -> io::Result<()>
    ensures { Tells W.lines out.old out.new result (prefix_text prefix) }
{
    match prefix {
        Some(bits) => write!(out, "/{bits}"),
        None => Ok(()),
    }
}

#[tactic(auto, unfolding(crate::specs::MissingLines::count_end))]
fn write_count_end<W: WriteLines>(count: u64, out: &mut W) -> io::Result<()>
    ensures { Tells W.lines out.old out.new result (count_end count) }
{
    writeln!(out, " {count}")
}
