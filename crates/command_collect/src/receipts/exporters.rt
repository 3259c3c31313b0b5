//! What a receipt says of who exported the inputs of a run.

ghost use Rattle.std.specs.Prelude.{◌≡◌, IfOk, string_bytes};
ghost use Rattle.table_receipts.specs.Values.{exporter_value};
ghost use Rattle.command_collect.specs.Exporters.{exporter_of, first_told as first, others_told as others};
ghost use Rattle.ipfix_elements.specs.Texts.{cell_text};
ghost use Rattle.command_collect.specs.Inputs.{address_of as address, asks_exporter as asks, exporter_said, exporter_text};

use flow_collect::Exporter;
use flow_table::Context;
use ipfix_elements::{Cell, write_cell};
use report_writing::Origin;
use std::alloc::{AllocError, Global};
use std::net::IpAddr;
use table_receipts::ExporterReceipt;

/// What is said of the exporter of a session: where its plan asks for it, the one that is told, else the peer that is its
/// origin.
pub fn exporter_receipt(
    alloc: Global,
    wanted: Context,
    told: Option<IpAddr>,
    origin: &Origin,
) -> Result<ExporterReceipt, AllocError>
    ensures { IfOk result (λ e. exporter_value e ≡ exporter_said wanted (exporter_of told origin.now)) }
{
    if asks_exporter(wanted) {
        address_of(alloc, known_exporter(told, origin))
    } else {
        Ok(ExporterReceipt::NotAsked)
    }
}

fn asks_exporter(wanted: Context) -> bool
    ensures { result ≡ asks wanted }
{
    wanted.exporter || wanted.exporter_ipv4_address || wanted.exporter_ipv6_address
}

fn known_exporter(told: Option<IpAddr>, origin: &Origin) -> Option<Exporter>
    ensures { result ≡ exporter_of told origin.now }
{
    match (told, origin) {
        (Some(address), _) => Some(Exporter::at(address)),
        (None, Origin::Peer(address)) => Some(Exporter::at(address.ip())),
        (None, Origin::File { .. } | Origin::Unknown) => None,
    }
}

fn address_of(alloc: Global, exporter: Option<Exporter>) -> Result<ExporterReceipt, AllocError>
    ensures { IfOk result (λ e. exporter_value e ≡ address exporter) }
{
    match exporter {
        Some(exporter) => Ok(ExporterReceipt::Address(text_of(alloc, exporter)?)),
        None => Ok(ExporterReceipt::Unknown),
    }
}

// An exporter's address as tables have it. It is UTF-8, and a vector fails only if memory runs out.
fn text_of(alloc: Global, exporter: Exporter) -> Result<String, AllocError>
    ensures { IfOk result (λ text. string_bytes text ≡ exporter_text exporter) }
{
    let mut octets = Vec::new(alloc);
    write_cell(&cell_of(exporter), &mut octets).map_err(|_| AllocError)?;
    match String::from_utf8(octets) {
        Ok(text) => Ok(text),
        Err(_) => Err(AllocError),
    }
}

fn cell_of(exporter: Exporter) -> Cell
    ensures { cell_text result ≡ exporter_text exporter }
{
    match exporter {
        Exporter::Ipv4(address) => Cell::Ipv4(address),
        Exporter::Ipv6(address) => Cell::Ipv6(address),
    }
}

/// The exporter that is told of the first place, if one is.
pub fn first_told(told: &[Option<IpAddr>]) -> Option<IpAddr>
    ensures { result ≡ first told.now }
{
    match told {
        [] => None,
        [first, ..] => *first,
    }
}

/// The exporters that are told of the places after the first.
pub fn others_told(told: &[Option<IpAddr>]) -> &[Option<IpAddr>]
    ensures { result.now ≡ others told.now }
{
    match told {
        [] => told,
        [_, others @ ..] => others,
    }
}
