//! The days and months of the system's time zones.

ghost use Rattle.std.specs.Prelude.{◌≡◌, IfErr, IfOk, option_map};
ghost use Rattle.std.specs.Option.{ForSome};
ghost use Rattle.flow_merge.specs.RowRecords.{AreOrdered};
ghost use Rattle.table_receipts.specs.Objects.{interval_name};
ghost use Rattle.table_receipts.specs.Values.{into_value};
ghost use Rattle.cli_inputs.specs.Formats.{interval_word};
ghost use Rattle.cli_inputs.specs.Zones.{AreBordersFor, AreOfZone, IsZoneOf, into_told, merged_interval, zone_name as name_of};
ghost use Rattle.jiff.specs.ZoneView.{plain_database, plain_zone};

use input_files::ReadText;
use jiff::tz::{TimeZone, TimeZoneDatabase};
use local_days::{LocalInterval, local_borders};
use report_writing::{Status, write_fault};
use std::alloc::{AllocError, Global};
use std::io::{Stderr, Write};
use table_receipts::{MergedInterval, MergedInto};

/// Where the system has the rules of time zones, in files that have their names.
const ZONE_FOLDER: &str = "/usr/share/zoneinfo";

/// The zone whose days and months are told without one. It needs no file.
const UTC: &str = "UTC";

/// The borders between the intervals that rows are put in, if they are local ones. If a zone is named without them, or is
/// none of the system, `err` has a line.
pub fn zone_borders(
    rt: &HostRuntime,
    into: Option<LocalInterval>,
    zone: Option<&str>,
    err: &mut Stderr,
) -> Result<Option<Vec<u64>>, Status>
    ensures are { IfOk result (AreBordersFor into (name_of zone.entry)) }
    ensures ordered { IfOk result (λ found. ForSome found (λ borders. AreOrdered borders.items)) }
{
    let Some(interval) = into else {
        if zone.is_some() {
            let _ = writeln!(err, "error: --zone is of no use without --into");
            return Err(Status::NotOpened);
        }
        return Ok(None);
    };
    match borders_in(rt, interval, zone_name(zone), err) {
        Ok(borders) => Ok(Some(borders)),
        Err(status) => Err(status),
    }
}

/// Into what rows are merged, as a receipt tells it, if it is into local intervals.
pub fn merged_into(
    alloc: Global,
    into: Option<LocalInterval>,
    zone: Option<&str>,
) -> Result<Option<MergedInto>, AllocError>
    ensures told { IfOk result
        (λ to. option_map into_value to ≡ into_told into (name_of zone.entry)) }
    // The receipt has the word that is given.
    ensures word { IfOk result (λ found.
        option_map (λ i. interval_name i.interval) found ≡ option_map interval_word into) }
{
    match into {
        Some(interval) => Ok(Some(MergedInto {
            interval: told_interval(interval),
            zone: String::from_str(alloc, zone_name(zone))?,
        })),
        None => Ok(None),
    }
}

fn told_interval(interval: LocalInterval) -> MergedInterval
    ensures told { result ≡ merged_interval interval }
    ensures word { interval_name result ≡ interval_word interval }
{
    match interval {
        LocalInterval::Day => MergedInterval::Day,
        LocalInterval::Month => MergedInterval::Month,
    }
}

// The name of the zone that is taken.
fn zone_name(zone: Option<&str>) -> &str
    ensures { result.now ≡ name_of zone.entry }
{
    match zone {
        Some(name) => name,
        None => UTC,
    }
}

// The borders in the zone of this name.
fn borders_in(
    rt: &HostRuntime,
    interval: LocalInterval,
    name: &str,
    err: &mut Stderr,
) -> Result<Vec<u64>, Status>
    ensures { IfOk result (λ borders. AreOfZone interval name.now borders.items) }
{
    let Ok(zones) = zones_with(rt, rt.alloc(), name) else {
        return Err(without_memory(err));
    };
    let Ok(zone) = zones.get(name) else {
        return Err(no_zone("zone", name, err));
    };
    match local_borders(rt.alloc(), interval, zone) {
        Ok(borders) => Ok(borders),
        Err(_) => Err(without_memory(err)),
    }
}

/// The zones whose rules are known: UTC, and the zone of this name, if one is named and the system has its rules.
pub fn known_zones(
    rt: &HostRuntime,
    name: Option<&str>,
    err: &mut Stderr,
) -> Result<TimeZoneDatabase, Status> {
    match zones_with(rt, rt.alloc(), zone_name(name)) {
        Ok(zones) => Ok(zones),
        Err(AllocError) => Err(without_memory(err)),
    }
}

/// Of these zones the one whose days and months are to have tables. If none has this name, `err` has a line.
pub fn zone_of_days<'z>(
    zones: &'z TimeZoneDatabase,
    name: &str,
    err: &mut Stderr,
) -> Result<TimeZone<'z>, Status>
    ensures zone { IfOk result
        (λ one. IsZoneOf (plain_database zones.now) name.now (plain_zone one)) }
    ensures err { IfErr result (λ status. status ≡ Status.NotOpened) }
{
    match zones.get(name) {
        Ok(zone) => Ok(zone),
        Err(_) => Err(no_zone("days", name, err)),
    }
}

// The zone that an option of this word names is none.
fn no_zone(word: &str, name: &str, err: &mut Stderr) -> Status
    ensures { result ≡ Status.NotOpened }
{
    let _ = writeln!(
        err,
        "error: --{word} '{name}' is no time zone of {ZONE_FOLDER}"
    );
    Status::NotOpened
}

// There was no memory for borders.
fn without_memory(err: &mut Stderr) -> Status {
    let _ = write_fault("merge", 1, "OutOfMemory", err);
    Status::Failed
}

// UTC, and the zone of this name if the system has its rules.
fn zones_with(rt: &HostRuntime, alloc: Global, name: &str) -> Result<TimeZoneDatabase, AllocError> {
    let mut zones = TimeZoneDatabase::new(alloc);
    if is_zone_name(name) {
        let path = format!(in alloc; "{ZONE_FOLDER}/{name}")?;
        if let Ok(rules) = rt.read_text(alloc, path.as_str()) {
            let _ = zones.insert(name, &rules);
        }
    }
    Ok(zones)
}

// Whether a name is one of a file below the folder of zones.
fn is_zone_name(name: &str) -> bool {
    !name.starts_with('/') && !name.split('/').any(|part| part == "..")
}
