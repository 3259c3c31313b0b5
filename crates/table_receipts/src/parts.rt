//! Writing the parts of a receipt.

ghost use Rattle.std.specs.Prelude.{◌≡◌, codes, map, string_bytes, option_map};
ghost use Rattle.json.specs.Json.{boolean, string};
ghost use Rattle.table_receipts.specs.Appending.{Writes, WritesAll, WritesMember};
ghost use Rattle.table_receipts.specs.Values.{exporter_value, fault_value, file_value, input_value, into_value, sum_value, table_value};
ghost use Rattle.table_receipts.specs.Objects.{counts_json, digest_json, domain_json, ending, exporter_members, fault_json, file_json, file_members, form_members, format_name, input_json, into_members, list_json, number_json, report_members, row_members, sum_json, table_json, text_members};

use crate::receipt::{
    CounterSum, DomainReceipt, ExporterReceipt, FileReceipt, InputReceipt, MergedInto,
    RecordCounts, TableFormat, TableReceipt,
};
use itoa::Buffer;
use json::Writer;
use std::alloc::{AllocError, Global};

// The least number that not every reader of JSON holds exactly (RFC 7493, section 2.2).
const INEXACT: u128 = 1 << 53;

// Writes a number, as a text if not every reader holds it exactly.
fn write_number(writer: &mut Writer, number: u128) -> Result<(), AllocError>
    ensures { Writes result writer.old writer.new (number_json number) }
{
    if number < INEXACT {
        writer.u64(number as u64)
    } else {
        writer.string(Buffer::new().format(number))
    }
}

pub fn write_number_member(writer: &mut Writer, name: &str, number: u128) -> Result<(), AllocError>
    ensures { WritesMember result writer.old writer.new (name.now, number_json number) }
{
    writer.key(name)?;
    write_number(writer, number)
}

pub fn write_text_member(writer: &mut Writer, name: &str, text: &str) -> Result<(), AllocError>
    ensures { WritesMember result writer.old writer.new (name.now, string text.now) }
{
    writer.key(name)?;
    writer.string(text)
}

pub fn write_digest_member(
    alloc: Global,
    writer: &mut Writer,
    name: &str,
    digest: &[u8; 32],
) -> Result<(), AllocError>
    ensures { WritesMember result writer.old writer.new (name.now, digest_json digest.now) }
{
    let digits = hex::encode(alloc, digest.as_slice())?;
    write_text_member(writer, name, digits.as_str())
}

// Writes the members that tell a file.
fn write_file_members(
    alloc: Global,
    writer: &mut Writer,
    file: &FileReceipt,
) -> Result<(), AllocError>
    ensures { WritesAll result writer.old writer.new (file_members (file_value file.now)) }
{
    write_text_member(writer, "name", file.name.as_str())?;
    write_number_member(writer, "octets", u128::from(file.octets))?;
    write_digest_member(alloc, writer, "sha256", &file.sha256)
}

#[tactic(auto, unfolding(crate::specs::Objects::file_json))]
fn write_file(alloc: Global, writer: &mut Writer, file: &FileReceipt) -> Result<(), AllocError>
    ensures { Writes result writer.old writer.new (file_json (file_value file.now)) }
{
    writer.begin_object()?;
    write_file_members(alloc, writer, file)?;
    writer.end_object()
}

pub fn write_files(
    alloc: Global,
    writer: &mut Writer,
    files: &[FileReceipt],
) -> Result<(), AllocError>
    ensures { Writes result writer.old writer.new (list_json file_json (map file_value files.now)) }
{
    writer.begin_array()?;
    for file in files {
        write_file(alloc, writer, file)?;
    }
    writer.end_array()
}

#[tactic(auto, unfolding(crate::specs::Objects::domain_json))]
fn write_domain(writer: &mut Writer, domain: &DomainReceipt) -> Result<(), AllocError>
    ensures { Writes result writer.old writer.new (domain_json domain.now) }
{
    writer.begin_object()?;
    write_number_member(writer, "domain", u128::from(domain.domain))?;
    write_number_member(writer, "lost", u128::from(domain.lost))?;
    write_number_member(writer, "backward", u128::from(domain.backward))?;
    write_number_member(writer, "unaccounted", u128::from(domain.unaccounted))?;
    write_number_member(writer, "unknown_sets", u128::from(domain.unknown_sets))?;
    writer.end_object()
}

fn write_domains(writer: &mut Writer, domains: &[DomainReceipt]) -> Result<(), AllocError>
    ensures { Writes result writer.old writer.new (list_json domain_json domains.now) }
{
    writer.begin_array()?;
    for domain in domains {
        write_domain(writer, domain)?;
    }
    writer.end_array()
}

fn write_fault(writer: &mut Writer, fault: &Option<String>) -> Result<(), AllocError>
    ensures { Writes result writer.old writer.new (fault_json (fault_value fault.now)) }
{
    match fault {
        Some(name) => writer.string(name.as_str()),
        None => writer.null(),
    }
}

// Writes the members that tell what the session of an input gave.
fn write_report_members(writer: &mut Writer, input: &InputReceipt) -> Result<(), AllocError>
    ensures { WritesAll result writer.old writer.new (report_members (input_value input.now)) }
{
    write_number_member(writer, "messages", u128::from(input.messages))?;
    write_number_member(writer, "records", u128::from(input.records))?;
    writer.key("fault")?;
    write_fault(writer, &input.fault)?;
    writer.key("domains")?;
    write_domains(writer, &input.domains)
}

// Writes the member that tells who exported an input, if there is one.
fn write_exporter(writer: &mut Writer, exporter: &ExporterReceipt) -> Result<(), AllocError>
    ensures { WritesAll result writer.old writer.new
        (exporter_members (exporter_value exporter.now)) }
{
    match exporter {
        ExporterReceipt::NotAsked => Ok(()),
        ExporterReceipt::Unknown => {
            writer.key("exporter")?;
            writer.null()
        }
        ExporterReceipt::Address(text) => write_text_member(writer, "exporter", text.as_str()),
    }
}

#[tactic(auto, unfolding(crate::specs::Objects::input_json))]
fn write_input(alloc: Global, writer: &mut Writer, input: &InputReceipt) -> Result<(), AllocError>
    ensures { Writes result writer.old writer.new (input_json (input_value input.now)) }
{
    writer.begin_object()?;
    write_file_members(alloc, writer, &input.file)?;
    write_report_members(writer, input)?;
    write_exporter(writer, &input.exporter)?;
    writer.end_object()
}

pub fn write_inputs(
    alloc: Global,
    writer: &mut Writer,
    inputs: &[InputReceipt],
) -> Result<(), AllocError>
    ensures { Writes result writer.old writer.new
        (list_json input_json (map input_value inputs.now)) }
{
    writer.begin_array()?;
    for input in inputs {
        write_input(alloc, writer, input)?;
    }
    writer.end_array()
}

fn write_names(writer: &mut Writer, names: &[String]) -> Result<(), AllocError>
    ensures { Writes result writer.old writer.new (list_json string (map string_bytes names.now)) }
{
    writer.begin_array()?;
    for name in names {
        writer.string(name.as_str())?;
    }
    writer.end_array()
}

fn write_complete(writer: &mut Writer, complete: bool) -> Result<(), AllocError>
    ensures { WritesMember result writer.old writer.new (codes "complete", boolean complete) }
{
    writer.key("complete")?;
    writer.boolean(complete)
}

/// Writes the names of the inputs that were left out, if some were, and whether the table is complete.
pub fn write_ending(writer: &mut Writer, names: &[String], complete: bool) -> Result<(), AllocError>
    ensures { WritesAll result writer.old writer.new
        (ending (map string_bytes names.now) complete) }
{
    if names.is_empty() {
        return write_complete(writer, complete);
    }
    writer.key("left_out")?;
    write_names(writer, names)?;
    write_complete(writer, complete)
}

#[tactic(auto, unfolding(crate::specs::Objects::counts_json))]
pub fn write_counts(writer: &mut Writer, counts: &RecordCounts) -> Result<(), AllocError>
    ensures { Writes result writer.old writer.new (counts_json counts.now) }
{
    writer.begin_object()?;
    write_number_member(writer, "used", u128::from(counts.used))?;
    write_number_member(writer, "options", u128::from(counts.options))?;
    write_number_member(writer, "untimed", u128::from(counts.untimed))?;
    write_number_member(writer, "backward", u128::from(counts.backward))?;
    write_number_member(writer, "unkeyed", u128::from(counts.unkeyed))?;
    write_number_member(writer, "too_long", u128::from(counts.too_long))?;
    writer.end_object()
}

#[tactic(auto, unfolding(crate::specs::Objects::sum_json))]
fn write_sum(writer: &mut Writer, sum: &CounterSum) -> Result<(), AllocError>
    ensures { Writes result writer.old writer.new (sum_json (sum_value sum.now)) }
{
    writer.begin_object()?;
    write_text_member(writer, "name", sum.name.as_str())?;
    write_number_member(writer, "sum", sum.sum)?;
    writer.end_object()
}

fn write_sums(writer: &mut Writer, sums: &[CounterSum]) -> Result<(), AllocError>
    ensures { Writes result writer.old writer.new (list_json sum_json (map sum_value sums.now)) }
{
    writer.begin_array()?;
    for sum in sums {
        write_sum(writer, sum)?;
    }
    writer.end_array()
}

fn name_of(format: TableFormat) -> &'static str
    ensures { result.now ≡ format_name format }
{
    match format {
        TableFormat::Csv => "csv",
        TableFormat::Ipfix => "ipfix",
        TableFormat::Json => "json",
    }
}

// Writes the members that tell how a table is written.
fn write_form_members(writer: &mut Writer, table: &TableReceipt) -> Result<(), AllocError>
    ensures { WritesAll result writer.old writer.new (form_members (table_value table.now)) }
{
    write_text_member(writer, "format", name_of(table.format))?;
    write_number_member(writer, "time", u128::from(table.time))
}

// Writes the members that tell into what the rows of a table were merged, if they were.
fn write_into_members(writer: &mut Writer, into: &Option<MergedInto>) -> Result<(), AllocError>
    ensures { WritesAll result writer.old writer.new
        (into_members (option_map into_value into.now)) }
{
    match into {
        None => Ok(()),
        Some(merged) => {
            write_text_member(writer, "into", merged.interval.name())?;
            write_text_member(writer, "zone", merged.zone.as_str())
        }
    }
}

// Writes the members that tell the text of a table.
fn write_text_members(
    alloc: Global,
    writer: &mut Writer,
    table: &TableReceipt,
) -> Result<(), AllocError>
    ensures { WritesAll result writer.old writer.new (text_members (table_value table.now)) }
{
    write_number_member(writer, "octets", u128::from(table.octets))?;
    write_digest_member(alloc, writer, "sha256", &table.sha256)
}

// Writes the members that tell what the rows of a table add up to.
fn write_row_members(writer: &mut Writer, table: &TableReceipt) -> Result<(), AllocError>
    ensures { WritesAll result writer.old writer.new (row_members (table_value table.now)) }
{
    write_number_member(writer, "rows", u128::from(table.rows))?;
    writer.key("sums")?;
    write_sums(writer, &table.sums)?;
    write_number_member(writer, "flows", table.flows)
}

#[tactic(auto, unfolding(crate::specs::Objects::table_json))]
pub fn write_table(
    alloc: Global,
    writer: &mut Writer,
    table: &TableReceipt,
) -> Result<(), AllocError>
    ensures { Writes result writer.old writer.new (table_json (table_value table.now)) }
{
    writer.begin_object()?;
    write_form_members(writer, table)?;
    write_into_members(writer, &table.into)?;
    write_text_members(alloc, writer, table)?;
    write_row_members(writer, table)?;
    writer.end_object()
}
