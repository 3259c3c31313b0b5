//! The line of the elements that nothing names.

ghost use Rattle.std.specs.Prelude.{◌≡◌, length, nat_lt, take};
ghost use Rattle.std.specs.BTreeMap.{values};
ghost use Rattle.std.specs.List.{flat_map};
ghost use Rattle.report_sessions.specs.FirstElements.{Takes, with_unnamed};
ghost use Rattle.report_sessions.specs.UnnamedElements.{count_text, element_text, elements_line, number_shown, over_text, templates_in, templates_of, unnamed_of, unnamed_elements, unnamed_in, unnamed_told};
ghost use Rattle.report_writing.specs.Writing.{Tells};

use crate::first_elements::FirstElements;
use crate::missing::write_numbers;
use element_registry::Elements;
use ipfix_message::{Domains, Template, Templates};
use ipfix_session::{DomainReport, FullReport};
use ipfix_wire::ElementId;
use report_writing::{Origin, Verbosity, WriteLines, write_session_start};
use std::io;

/// Writes which elements of the templates that are in force at the end of a session nothing names, if verbose
/// lines are asked for and there are any.
pub fn write_unnamed<W: WriteLines>(
    verbosity: Verbosity,
    elements: &Elements,
    session: usize,
    origin: &Origin,
    full: &FullReport,
    out: &mut W,
) -> io::Result<()>
    ensures { Tells W.lines out.old out.new result
        (unnamed_told verbosity elements.now session origin.now full.now) }
{
    if verbosity.verbose {
        write_elements_line(session, origin, &first_unnamed(elements, full), out)
    } else {
        Ok(())
    }
}

// The first elements that nothing names.
fn first_unnamed(elements: &Elements, full: &FullReport) -> FirstElements
    ensures first { result.first ≡ take 64 (unnamed_elements elements.now full.now) }
    ensures more { result.more
        ≡ nat_lt 64 (length (unnamed_elements elements.now full.now)) }
{
    let mut kept = FirstElements::new();
    let Some(domains) = &full.domains else {
        return kept;
    };
    add_of_domains(elements, domains, &full.report.domains, &mut kept);
    kept
}

// Those of the templates of all domains.
fn add_of_domains(
    elements: &Elements,
    domains: &Domains,
    reports: &[DomainReport],
    kept: &mut FirstElements,
)
    ensures { Takes kept.old kept.new
        (unnamed_of elements.now (templates_in domains.now reports.now)) }
{
    for report in reports {
        add_of_domain(elements, domains, report.domain, kept);
    }
}

// Those of the templates of a domain.
fn add_of_domain(elements: &Elements, domains: &Domains, domain: u32, kept: &mut FirstElements)
    ensures { Takes kept.old kept.new
        (unnamed_of elements.now (templates_of domains.now domain)) }
{
    if let Some(templates) = domains.templates(domain) {
        add_of_templates(elements, templates, kept);
    }
}

// Those of some templates, by their ids.
fn add_of_templates(elements: &Elements, templates: &Templates, kept: &mut FirstElements)
    ensures { Takes kept.old kept.new (unnamed_of elements.now (values templates.now)) }
{
    for known in templates.values() {
        add_of_template(elements, known.template(), kept);
    }
}

// Those of the fields of a template.
fn add_of_template(elements: &Elements, template: &Template, kept: &mut FirstElements)
    ensures { Takes kept.old kept.new (unnamed_in elements.now template.now) }
{
    let specs = template.specs.as_slice();
    for spec in specs {
        add_if_unnamed(elements, spec.element, kept);
    }
}

fn add_if_unnamed(elements: &Elements, element: ElementId, kept: &mut FirstElements)
    ensures { kept.new ≡ with_unnamed elements.now kept.old element }
{
    if elements.name_of(element).is_none() {
        kept.add(element);
    }
}

fn write_elements_line<W: WriteLines>(
    session: usize,
    origin: &Origin,
    kept: &FirstElements,
    out: &mut W,
) -> io::Result<()>
    ensures { Tells W.lines out.old out.new result
        (elements_line session origin.now kept.now) }
{
    let first = kept.as_slice();
    if first.is_empty() {
        return Ok(());
    }
    write_session_start(session, origin, out)?;
    write_number(first.len(), kept.has_more(), out)?;
    write_elements(first, out)?;
    writeln!(out)
}

fn write_number<W: WriteLines>(count: usize, has_more: bool, out: &mut W) -> io::Result<()>
    ensures { Tells W.lines out.old out.new result (number_shown count has_more) }
{
    if has_more {
        write_over(out)
    } else {
        write_count(count, out)
    }
}

#[tactic(auto, unfolding(crate::specs::UnnamedElements::over_text))]
fn write_over<W: WriteLines>(out: &mut W) -> io::Result<()>
    ensures { Tells W.lines out.old out.new result over_text }
{
    write!(out, ": elements without a name over 64:")
}

#[tactic(auto, unfolding(crate::specs::UnnamedElements::count_text))]
fn write_count<W: WriteLines>(count: usize, out: &mut W) -> io::Result<()>
    ensures { Tells W.lines out.old out.new result (count_text count) }
{
    write!(out, ": elements without a name {count}:")
}

fn write_elements<W: WriteLines>(elements: &[ElementId], out: &mut W) -> io::Result<()>
    ensures { Tells W.lines out.old out.new result
        (flat_map element_text elements.now) }
{
    for element in elements {
        write_element(*element, out)?;
    }
    Ok(())
}

#[tactic(auto, unfolding(crate::specs::UnnamedElements::element_text))]
fn write_element<W: WriteLines>(element: ElementId, out: &mut W) -> io::Result<()>
    ensures { Tells W.lines out.old out.new result (element_text element) }
{
    write!(out, " ")?;
    write_numbers(element, out)
}
