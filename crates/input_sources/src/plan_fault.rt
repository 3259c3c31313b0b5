//! The lines of a fault of a plan.

ghost use Rattle.std.specs.Prelude.{◌++◌};
ghost use Rattle.input_sources.specs.PlaceLines.{plan_fault_line, plan_lines, rule_fault_line, text_fault_line};
ghost use Rattle.input_sources.specs.WhereLines.{filter_fault, filtered_lines, no_conditions_lines, where_line};
ghost use Rattle.report_writing.specs.Writing.{Tells};

use crate::places::{write_key_line, write_place};
use crate::scaling_fault::write_no_sampling;
use crate::where_places::write_where;
use element_registry::Elements;
use flow_plan::{PlanTextError, PlanTextFault};
use flow_plan_fields::{FilteredPlanError, WhereFault};
use flow_table::PlanFault;
use report_writing::{WriteLines, write_fault};
use std::io;

/// Writes the line of a fault of the text of a plan that names these elements, with the plan's own fault if it
/// has one, and then the line that tells where it is. For want of memory there is no such line.
pub fn write_plan_fault<W: WriteLines>(
    elements: &Elements,
    error: &PlanTextError,
    out: &mut W,
) -> io::Result<()>
    ensures { Tells W.lines out.old out.new result
        (plan_lines elements.now error.now) }
{
    write_plan_fault_line(error.fault(), out)?;
    write_place(elements, error, out)
}

/// Writes the line of a fault of the text of a plan with a filter, and then the line that tells where it is: of
/// conditions which of them it is, counted from 1 in the order of the text.
pub fn write_filtered_fault<W: WriteLines>(
    elements: &Elements,
    error: &FilteredPlanError,
    out: &mut W,
) -> io::Result<()>
    ensures { Tells W.lines out.old out.new result
        (filtered_lines elements.now error.now) }
{
    match error {
        FilteredPlanError::Plan(error) => write_plan_fault(elements, error, out),
        FilteredPlanError::NoConditions => write_no_conditions(out),
        FilteredPlanError::Where { place, fault } => write_no_condition(*place, fault, out),
        FilteredPlanError::NoSampling => write_no_sampling(out),
    }
}

fn write_no_conditions<W: WriteLines>(out: &mut W) -> io::Result<()>
    ensures { Tells W.lines out.old out.new result
        no_conditions_lines }
{
    write_filter_fault(out)?;
    write_key_line("where", "not an array of tables", out)
}

fn write_no_condition<W: WriteLines>(
    place: usize,
    fault: &WhereFault,
    out: &mut W,
) -> io::Result<()>
    ensures { Tells W.lines out.old out.new result
        (filter_fault ++ where_line place fault.now) }
{
    write_filter_fault(out)?;
    write_where(place, fault, out)
}

fn write_filter_fault<W: WriteLines>(out: &mut W) -> io::Result<()>
    ensures { Tells W.lines out.old out.new result filter_fault }
{
    write_fault("plan", 8, "Filter", out)
}

fn write_plan_fault_line<W: WriteLines>(fault: PlanTextFault, out: &mut W) -> io::Result<()>
    ensures { Tells W.lines out.old out.new result
        (plan_fault_line fault) }
{
    match fault {
        PlanTextFault::Plan(inner) => write_inner_fault(inner, out),
        _ => write_text_fault(fault, out),
    }
}

fn write_text_fault<W: WriteLines>(fault: PlanTextFault, out: &mut W) -> io::Result<()>
    ensures { Tells W.lines out.old out.new result
        (text_fault_line fault) }
{
    write_fault("plan", fault.number(), fault.name(), out)
}

fn write_inner_fault<W: WriteLines>(fault: PlanFault, out: &mut W) -> io::Result<()>
    ensures { Tells W.lines out.old out.new result
        (rule_fault_line fault) }
{
    write_fault("plan: fault 6 Plan", fault.number(), fault.name(), out)
}
