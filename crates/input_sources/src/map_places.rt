//! The lines of a fault of a plan's maps, and of a file of one.

ghost use Rattle.std.specs.Prelude.{◌≡◌, ◌++◌};
ghost use Rattle.report_writing.specs.FaultLines.{fault_text};
ghost use Rattle.report_writing.specs.Writing.{Tells};
ghost use Rattle.input_sources.specs.MapLines as lines;

use crate::places::{write_key_line, write_words_end};
use crate::plan_fault::write_plan_fault;
use element_registry::{Elements, ElementsFault};
use flow_plan_fields::{MapTableFault, PlanMapsError};
use prefix_numbers::{MapError, MapFault};
use report_writing::{WriteLines, write_fault};
use std::io;

/// Writes the line of a fault of what a plan says of maps, and then the line that tells where it is: of maps which of
/// them it is, counted from 1 in the order of the text.
pub fn write_map_fault<W: WriteLines>(
    elements: &Elements,
    error: &PlanMapsError,
    out: &mut W,
) -> io::Result<()>
    ensures { Tells W.lines out.old out.new result
        (lines.map_lines elements.now error.now) }
{
    match error {
        PlanMapsError::Document(error) => write_plan_fault(elements, error, out),
        PlanMapsError::NoMaps => write_no_maps(out),
        PlanMapsError::Map { place, fault } => write_no_map(*place, *fault, out),
    }
}

fn write_no_maps<W: WriteLines>(out: &mut W) -> io::Result<()>
    ensures { Tells W.lines out.old out.new result
        lines.no_maps_lines }
{
    write_map_fault_line(out)?;
    write_key_line("map", "not an array of tables", out)
}

fn write_no_map<W: WriteLines>(place: usize, fault: MapTableFault, out: &mut W) -> io::Result<()>
    ensures { Tells W.lines out.old out.new result
        (lines.map_fault ++ lines.map_line place fault) }
{
    write_map_fault_line(out)?;
    write_map_place(place, fault, out)
}

fn write_map_fault_line<W: WriteLines>(out: &mut W) -> io::Result<()>
    ensures { Tells W.lines out.old out.new result lines.map_fault }
{
    write_fault("plan", 9, "Map", out)
}

fn write_map_place<W: WriteLines>(place: usize, fault: MapTableFault, out: &mut W) -> io::Result<()>
    ensures { Tells W.lines out.old out.new result
        (lines.map_line place fault) }
{
    write_map_start(place, out)?;
    write_words_end(words_of(fault), out)
}

#[tactic(auto, unfolding(crate::specs::MapLines::map_start))]
fn write_map_start<W: WriteLines>(place: usize, out: &mut W) -> io::Result<()>
    ensures { Tells W.lines out.old out.new result (lines.map_start place) }
{
    write!(out, "collectd: plan: map {place}")
}

// What is wrong with a [[map]].
fn words_of(fault: MapTableFault) -> &'static str
    ensures { result.now ≡ lines.map_words fault }
{
    match fault {
        MapTableFault::NoTable => "not a table",
        MapTableFault::UnknownKey => "a key beside \"name\" and \"file\"",
        MapTableFault::NoName => "\"name\" missing, or not letters, digits, _ and -",
        MapTableFault::NoFile => "\"file\" missing, or not a text",
        MapTableFault::NameTwice => "an earlier one has its name",
    }
}

/// Writes the line of a fault by which the keys of maps can't be added to the elements.
pub fn write_key_fault<W: WriteLines>(fault: ElementsFault, out: &mut W) -> io::Result<()>
    ensures { Tells W.lines out.old out.new result (lines.key_lines fault) }
{
    write_fault("plan: keys of maps", fault.number(), fault.name(), out)
}

/// Writes the line of what is wrong with the file of a map, and where.
pub fn write_file_fault<W: WriteLines>(path: &str, error: MapError, out: &mut W) -> io::Result<()>
    ensures { Tells W.lines out.old out.new result (lines.file_line path.now error) }
{
    write_file_start(path, out)?;
    write_line(error, out)?;
    write_fault_end(error.fault, out)
}

#[tactic(auto, unfolding(crate::specs::MapLines::file_start))]
fn write_file_start<W: WriteLines>(path: &str, out: &mut W) -> io::Result<()>
    ensures { Tells W.lines out.old out.new result (lines.file_start path.now) }
{
    write!(out, "collectd: map: {path}")
}

fn write_line<W: WriteLines>(error: MapError, out: &mut W) -> io::Result<()>
    ensures { Tells W.lines out.old out.new result
        (lines.line_of error.fault error.line) }
{
    match error.fault {
        MapFault::OutOfMemory => Ok(()),
        _ => write_line_number(error.line, out),
    }
}

#[tactic(auto, unfolding(crate::specs::MapLines::line_text))]
fn write_line_number<W: WriteLines>(line: u64, out: &mut W) -> io::Result<()>
    ensures { Tells W.lines out.old out.new result (lines.line_text line) }
{
    write!(out, ": line {line}")
}

#[tactic(auto, unfolding(report_writing::specs::FaultLines::fault_text))]
fn write_fault_end<W: WriteLines>(fault: MapFault, out: &mut W) -> io::Result<()>
    ensures { Tells W.lines out.old out.new result
        (lines.fault_end fault) }
{
    write_number_and_name(fault.number(), fault.name(), out)
}

#[tactic(auto, unfolding(report_writing::specs::FaultLines::fault_text))]
fn write_number_and_name<W: WriteLines>(number: u8, name: &str, out: &mut W) -> io::Result<()>
    ensures { Tells W.lines out.old out.new result (fault_text number name.now) }
{
    writeln!(out, ": fault {number} {name}")
}
