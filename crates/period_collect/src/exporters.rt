//! Whose the files of a period are.

ghost use Rattle.std.specs.Prelude.{IfOk};
ghost use Rattle.period_collect.specs.Exporters.{AreExportersOf};

use exporter_names::recorded_exporter;
use std::alloc::{AllocError, Global};
use std::net::IpAddr;

/// The exporter of each path, by its place: the peer in the name of its file.
pub(crate) fn exporters_of(
    alloc: Global,
    mut paths: &[&str],
) -> Result<Vec<Option<IpAddr>>, AllocError>
    ensures { IfOk result (λ told. AreExportersOf paths.entry.now told.items) }
{
    let mut exporters = Vec::new(alloc);
    while let [path, rest @ ..] = paths {
        exporters.push(recorded_exporter(alloc, path)?)?;
        paths = rest;
    }
    Ok(exporters)
}
