//! Reading the parts of a receipt from a value of JSON. What isn't as a receipt has it is read as nothing:
//! the text that a receipt would have is compared afterwards.

ghost use Rattle.std.specs.Prelude.{◌≡◌, codes, map, option_map, string_bytes};
ghost use Rattle.json.specs.Json.{string};
ghost use Rattle.json.specs.Value.{value_view};
ghost use Rattle.table_receipts.specs.Objects.{counts_json, domain_json, file_json, format_name, input_json, interval_name, sum_json, table_json};
ghost use Rattle.table_receipts.specs.Told.{TellsExporter, TellsFault, TellsFile, TellsInto, TellsLeftOut};
ghost use Rattle.table_receipts.specs.ReadBack.{Reads, ReadsBack, ReadsList, values_in};
ghost use Rattle.table_receipts.specs.Texts.{receipt_json};
ghost use Rattle.table_receipts.specs.Values.{FitsCounts, FitsDomain, FitsFile, FitsInput, FitsReceipt, FitsSum, FitsTable, exporter_value, fault_value, file_value, input_value, into_value, receipt_value, sum_value, table_value};
ghost use Rattle.table_receipts.specs.declared.receipt.DomainReceipt.{DomainReceipt as Domain};
ghost use Rattle.table_receipts.specs.declared.receipt.MergedInterval.{MergedInterval as Interval};
ghost use Rattle.table_receipts.specs.declared.receipt.RecordCounts.{RecordCounts as Counts};
ghost use Rattle.table_receipts.specs.declared.receipt.TableFormat.{TableFormat as Format};

use crate::looking_up::{
    count_of, digest_of, flag_of, list_of, member_of, number_of, small_of, text_in, text_of,
};
use crate::receipt::{
    CounterSum, DomainReceipt, ExporterReceipt, FileReceipt, InputReceipt, MergedInterval,
    MergedInto, Receipt, RecordCounts, TableFormat, TableReceipt,
};
use json::Value;
use std::alloc::{AllocError, Global};

fn file_of(alloc: Global, object: &Value<'_>) -> Result<FileReceipt, AllocError>
    ensures { ReadsBack result file_value FitsFile (TellsFile (value_view object.now)) }
{
    Ok(FileReceipt {
        name: String::from_str(alloc, text_of(object, "name"))?,
        octets: count_of(object, "octets"),
        sha256: digest_of(object, "sha256"),
    })
}

// The files that a member of this name lists.
fn files_of(alloc: Global, object: &Value<'_>, name: &str) -> Result<Vec<FileReceipt>, AllocError>
    ensures { ReadsList result file_value FitsFile file_json object.now name.now }
{
    let mut files = Vec::new(alloc);
    let Some(items) = list_of(object, name) else {
        return Ok(files);
    };
    for item in items {
        files.push(file_of(alloc, item)?)?;
    }
    Ok(files)
}

fn domain_of(object: &Value<'_>) -> DomainReceipt
    ensures { (d : Domain) → FitsDomain d → value_view object.now ≡ domain_json d → result ≡ d }
{
    DomainReceipt {
        domain: small_of(object, "domain"),
        lost: count_of(object, "lost"),
        backward: count_of(object, "backward"),
        unaccounted: count_of(object, "unaccounted"),
        unknown_sets: count_of(object, "unknown_sets"),
    }
}

fn domains_of(alloc: Global, object: &Value<'_>) -> Result<Vec<DomainReceipt>, AllocError>
    ensures { ReadsList result (λ d. d) FitsDomain domain_json object.now (codes "domains") }
{
    let mut domains = Vec::new(alloc);
    let Some(items) = list_of(object, "domains") else {
        return Ok(domains);
    };
    for item in items {
        domains.push(domain_of(item))?;
    }
    Ok(domains)
}

// The name of a fault.
fn fault_of(alloc: Global, object: &Value<'_>) -> Result<Option<String>, AllocError>
    ensures { Reads result fault_value (TellsFault (value_view object.now)) }
{
    match object.get("fault") {
        Some(Value::String(name)) => Ok(Some(String::from_str(alloc, name)?)),
        _ => Ok(None),
    }
}

// Who exported an input.
fn exporter_of(alloc: Global, object: &Value<'_>) -> Result<ExporterReceipt, AllocError>
    ensures { Reads result exporter_value (TellsExporter (value_view object.now)) }
{
    match object.get("exporter") {
        Some(Value::String(text)) => {
            let address = String::from_str(alloc, text)?;
            Ok(ExporterReceipt::Address(address))
        }
        Some(_) => Ok(ExporterReceipt::Unknown),
        None => Ok(ExporterReceipt::NotAsked),
    }
}

fn input_of(alloc: Global, object: &Value<'_>) -> Result<InputReceipt, AllocError>
    ensures { ReadsBack result input_value FitsInput (λ i. value_view object.now ≡ input_json i) }
{
    Ok(InputReceipt {
        file: file_of(alloc, object)?,
        messages: count_of(object, "messages"),
        records: count_of(object, "records"),
        fault: fault_of(alloc, object)?,
        domains: domains_of(alloc, object)?,
        exporter: exporter_of(alloc, object)?,
    })
}

fn inputs_of(alloc: Global, object: &Value<'_>) -> Result<Vec<InputReceipt>, AllocError>
    ensures { ReadsList result input_value FitsInput input_json object.now (codes "inputs") }
{
    let mut inputs = Vec::new(alloc);
    let Some(items) = list_of(object, "inputs") else {
        return Ok(inputs);
    };
    for item in items {
        inputs.push(input_of(alloc, item)?)?;
    }
    Ok(inputs)
}

fn counts_of(object: &Value<'_>) -> RecordCounts
    ensures { (c : Counts) → FitsCounts c → value_view object.now ≡ counts_json c → result ≡ c }
{
    RecordCounts {
        used: count_of(object, "used"),
        options: count_of(object, "options"),
        untimed: count_of(object, "untimed"),
        backward: count_of(object, "backward"),
        unkeyed: count_of(object, "unkeyed"),
        too_long: count_of(object, "too_long"),
    }
}

fn sum_of(alloc: Global, object: &Value<'_>) -> Result<CounterSum, AllocError>
    ensures { ReadsBack result sum_value FitsSum (λ s. value_view object.now ≡ sum_json s) }
{
    Ok(CounterSum {
        name: String::from_str(alloc, text_of(object, "name"))?,
        sum: number_of(object, "sum"),
    })
}

fn sums_of(alloc: Global, object: &Value<'_>) -> Result<Vec<CounterSum>, AllocError>
    ensures { ReadsList result sum_value FitsSum sum_json object.now (codes "sums") }
{
    let mut sums = Vec::new(alloc);
    let Some(items) = list_of(object, "sums") else {
        return Ok(sums);
    };
    for item in items {
        sums.push(sum_of(alloc, item)?)?;
    }
    Ok(sums)
}

fn format_by(name: &str) -> TableFormat
    ensures { (f : Format) → name.now ≡ format_name f → result ≡ f }
{
    match name {
        "csv" => TableFormat::Csv,
        "ipfix" => TableFormat::Ipfix,
        _ => TableFormat::Json,
    }
}

fn interval_by(name: &str) -> MergedInterval
    ensures { (i : Interval) → name.now ≡ interval_name i → result ≡ i }
{
    match name {
        "day" => MergedInterval::Day,
        _ => MergedInterval::Month,
    }
}

// Into what rows were merged.
fn into_of(alloc: Global, object: &Value<'_>) -> Result<Option<MergedInto>, AllocError>
    ensures { Reads result (option_map into_value) (TellsInto (value_view object.now)) }
{
    match object.get("into") {
        Some(Value::String(name)) => Ok(Some(MergedInto {
            interval: interval_by(name),
            zone: String::from_str(alloc, text_of(object, "zone"))?,
        })),
        _ => Ok(None),
    }
}

fn table_of(alloc: Global, object: &Value<'_>) -> Result<TableReceipt, AllocError>
    ensures { ReadsBack result table_value FitsTable (λ t. value_view object.now ≡ table_json t) }
{
    Ok(TableReceipt {
        format: format_by(text_of(object, "format")),
        time: small_of(object, "time"),
        into: into_of(alloc, object)?,
        octets: count_of(object, "octets"),
        sha256: digest_of(object, "sha256"),
        rows: count_of(object, "rows"),
        sums: sums_of(alloc, object)?,
        flows: number_of(object, "flows"),
    })
}

// Texts.
fn texts_of(alloc: Global, items: &[Value<'_>]) -> Result<Vec<String>, AllocError>
    ensures { Reads result (values_in string_bytes)
        (λ ts. map value_view items.now ≡ map string ts) }
{
    let mut texts = Vec::new(alloc);
    for item in items {
        texts.push(String::from_str(alloc, text_in(item))?)?;
    }
    Ok(texts)
}

// The names of the inputs that were left out.
fn left_out_of(alloc: Global, object: &Value<'_>) -> Result<Vec<String>, AllocError>
    ensures { Reads result (values_in string_bytes) (TellsLeftOut (value_view object.now)) }
{
    match object.get("left_out") {
        Some(Value::Array(items)) => texts_of(alloc, items.as_slice()),
        _ => Ok(Vec::new(alloc)),
    }
}

pub fn receipt_of(alloc: Global, object: &Value<'_>) -> Result<Receipt, AllocError>
    ensures { ReadsBack result receipt_value FitsReceipt
        (λ r. value_view object.now ≡ receipt_json r) }
{
    Ok(Receipt {
        collectd: String::from_str(alloc, text_of(object, "collectd"))?,
        plan: String::from_str(alloc, text_of(member_of(object, "plan"), "text"))?,
        elements: files_of(alloc, object, "elements")?,
        maps: files_of(alloc, object, "maps")?,
        inputs: inputs_of(alloc, object)?,
        records: counts_of(member_of(object, "records")),
        table: table_of(alloc, member_of(object, "table"))?,
        left_out: left_out_of(alloc, object)?,
        complete: flag_of(object, "complete"),
    })
}
