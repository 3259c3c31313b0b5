//! What a receipt says of the inputs of a run.

ghost use Rattle.std.specs.Prelude.{◌≡◌, map, option_map, string_bytes, IfOk, IfNone, IfSome};
ghost use Rattle.ipfix_session.specs.Faults.{name_of};
ghost use Rattle.table_receipts.specs.Values.{exporter_value, file_value, input_value};
ghost use Rattle.command_collect.specs.Exporters.{first_origin as first, other_origins as others};
ghost use Rattle.command_collect.specs.Inputs.{domain_of as domain, domains_of as domains_in, file_of as file, input_at, input_of as input, inputs_of, name_of_input};

use crate::job::CollectJob;
use crate::receipts::exporters::{exporter_receipt, first_told, others_told};
use flow_table::Context;
use ipfix_session::{DomainBalance, DomainReport, FullReport, SessionFault};
use report_writing::Origin;
use std::alloc::{AllocError, Global};
use std::net::IpAddr;
use table_receipts::{DomainReceipt, ExporterReceipt, FileReceipt, InputReceipt};

/// The inputs of a run, by the origins, exporters, reports and digests of its sessions, which have their places.
pub fn inputs_of(
    alloc: Global,
    job: &CollectJob,
    origins: &[Origin],
    reports: &[FullReport],
    digests: &[[u8; 32]],
) -> Result<Vec<InputReceipt>, AllocError>
    ensures { IfOk result (λ all. map input_value all.items
        ≡ inputs_of job.now origins.now reports.now digests.now) }
{
    let mut all = Vec::with_capacity(alloc, reports.len())?;
    let wanted = job.wanted;
    let mut told = job.exporters;
    let mut left = origins;
    let mut fulls = reports;
    let mut hashes = digests;
    while let Some((full, later)) = fulls.split_first() {
        let Some((digest, rest)) = hashes.split_first() else {
            return Ok(all);
        };
        all.push(input_at(alloc, wanted, told, left, full, *digest)?)?;
        told = others_told(told);
        left = other_origins(left);
        fulls = later;
        hashes = rest;
    }
    Ok(all)
}

// The input of the session at the first place.
fn input_at(
    alloc: Global,
    wanted: Context,
    told: &[Option<IpAddr>],
    origins: &[Origin],
    full: &FullReport,
    sha256: [u8; 32],
) -> Result<InputReceipt, AllocError>
    ensures { IfOk result (λ i. input_value i
        ≡ input_at wanted told.now origins.now full.now sha256) }
{
    let origin = first_origin(origins);
    let exporter = exporter_receipt(alloc, wanted, first_told(told), &origin)?;
    input_of(alloc, origin, exporter, full, sha256)
}

// The first origin, if there is one.
fn first_origin<'a>(origins: &[Origin<'a>]) -> Origin<'a>
    ensures { result ≡ first origins.now }
{
    match origins {
        [] => Origin::Unknown,
        [origin, ..] => *origin,
    }
}

// The origins after the first.
fn other_origins<'a, 'b>(origins: &'b [Origin<'a>]) -> &'b [Origin<'a>]
    ensures { result.now ≡ others origins.now }
{
    match origins {
        [] => origins,
        [_, others @ ..] => others,
    }
}

fn input_of(
    alloc: Global,
    origin: Origin,
    exporter: ExporterReceipt,
    full: &FullReport,
    sha256: [u8; 32],
) -> Result<InputReceipt, AllocError>
    ensures { IfOk result (λ i. input_value i
        ≡ input origin.entry (exporter_value exporter) full.now sha256) }
{
    Ok(InputReceipt {
        file: file_of(alloc, origin, full.stopped_at.octet, sha256)?,
        messages: full.report.messages,
        records: full.report.delivered,
        fault: fault_of(alloc, full.report.fault)?,
        domains: domains_of(alloc, &full.report.domains, &full.balances)?,
        exporter,
    })
}

fn file_of(
    alloc: Global,
    origin: Origin,
    octets: u64,
    sha256: [u8; 32],
) -> Result<FileReceipt, AllocError>
    ensures name { IfOk result (λ f. string_bytes f.name ≡ name_of_input origin.entry) }
    ensures octets { IfOk result (λ f. f.octets ≡ octets) }
    ensures digest { IfOk result (λ f. f.sha256 ≡ sha256) }
{
    Ok(FileReceipt {
        name: name_of_origin(alloc, origin)?,
        octets,
        sha256,
    })
}

// The name of an input.
fn name_of_origin(alloc: Global, origin: Origin) -> Result<String, AllocError>
    ensures { IfOk result (λ name. string_bytes name ≡ name_of_input origin.entry) }
{
    match origin {
        Origin::File { name, .. } => String::from_str(alloc, name),
        Origin::Peer(address) => format!(in alloc; "{address}"),
        Origin::Unknown => String::from_str(alloc, "-"),
    }
}

// The name of the fault of a session, if it has one.
fn fault_of(alloc: Global, fault: Option<SessionFault>) -> Result<Option<String>, AllocError>
    ensures { IfOk result (λ name. option_map string_bytes name ≡ option_map name_of fault) }
{
    match fault {
        Some(fault) => Ok(Some(String::from_str(alloc, fault.name())?)),
        None => Ok(None),
    }
}

// What the messages of each domain say.
fn domains_of(
    alloc: Global,
    domains: &[DomainReport],
    balances: &[DomainBalance],
) -> Result<Vec<DomainReceipt>, AllocError>
    ensures { IfOk result (λ all. all.items ≡ domains_in domains.now balances.now) }
{
    let mut all = Vec::with_capacity(alloc, domains.len())?;
    let mut left = domains;
    let mut others = balances;
    while let Some((report, later)) = left.split_first() {
        let Some((balance, rest)) = others.split_first() else {
            return Ok(all);
        };
        all.push(domain_of(report, balance))?;
        left = later;
        others = rest;
    }
    Ok(all)
}

fn domain_of(report: &DomainReport, balance: &DomainBalance) -> DomainReceipt
    ensures { result ≡ domain report.now balance.now }
{
    DomainReceipt {
        domain: report.domain,
        lost: report.lost,
        backward: report.backward,
        unaccounted: balance.unaccounted,
        unknown_sets: balance.passed_over.unknown_sets,
    }
}
