//! The maps of a document.

ghost use Rattle.std.specs.Prelude.{◌≡◌, List, Some, map};
ghost use Rattle.std.specs.List.{list_all};
ghost use Rattle.std.specs.Option.{option_map};
ghost use Rattle.element_registry.specs.Rows.{is_name_octet as is_octet};
ghost use Rattle.toml.specs.View.{table_view, view};
ghost use Rattle.flow_plan_fields.specs.Errors.{ReadsMaps, ReadsMap, ReadsMapAt};
ghost use Rattle.flow_plan_fields.specs.Maps as maps_of;
ghost use Rattle.flow_plan_fields.specs.Maps.{found_text, map_value};

use crate::documents::text_at;
use crate::error::{MapTableFault, PlanMapsError};
use crate::named::NamedMap;
use std::alloc::Global;
use toml::{Table, Value};

/// The maps of these values, or the first fault.
pub fn read_maps(alloc: Global, values: Option<&[Value]>) -> Result<Vec<NamedMap>, PlanMapsError>
    ensures { ReadsMaps (option_map (λ values. map view values.now) values.entry) result }
{
    match values {
        Some(values) => maps_in(alloc, values),
        None => Err(PlanMapsError::NoMaps),
    }
}

fn maps_in(alloc: Global, mut values: &[Value]) -> Result<Vec<NamedMap>, PlanMapsError>
    ensures { ReadsMaps (Some (map view values.entry.now)) result }
{
    let mut maps = Vec::new(alloc);
    while let [value, rest @ ..] = values {
        match read_map(alloc, &maps, value) {
            Ok(map) => maps.push(map)?,
            Err(error) => return Err(error),
        }
        values = rest;
    }
    Ok(maps)
}

// The map of a value that follows others, or its fault with its place.
fn read_map(alloc: Global, before: &[NamedMap], value: &Value) -> Result<NamedMap, PlanMapsError>
    ensures { ReadsMapAt (map map_value before.now) (view value.now) result }
{
    let place = before.len() + 1;
    let (name, file) = match map_parts(before, value) {
        Ok(parts) => parts,
        Err(fault) => return Err(PlanMapsError::Map { place, fault }),
    };
    Ok(NamedMap {
        name: String::from_str(alloc, name)?,
        file: String::from_str(alloc, file)?,
    })
}

// The name and the file of a value that follows maps, or its fault.
fn map_parts<'a>(before: &[NamedMap], value: &'a Value) -> Result<(&'a str, &'a str), MapTableFault>
    ensures { ReadsMap (maps_of.map_of_value (map map_value before.now) (view value.now)) result }
{
    let Some(table) = value.as_table() else {
        return Err(MapTableFault::NoTable);
    };
    if unknown_key(table).is_some() {
        return Err(MapTableFault::UnknownKey);
    }
    let Some(name) = name_in(table) else {
        return Err(MapTableFault::NoName);
    };
    let Some(file) = text_at(table, "file") else {
        return Err(MapTableFault::NoFile);
    };
    if has_name(name, before) {
        return Err(MapTableFault::NameTwice);
    }
    Ok((name, file))
}

// The first key that maps don't have.
fn unknown_key(table: &Table) -> Option<&String>
    ensures { found_text result ≡ maps_of.unknown_key (table_view table.now) }
{
    table.keys().find(|name| !is_map_key(name.as_str()))
}

fn is_map_key(name: &str) -> bool
    ensures { result ≡ maps_of.is_map_key name.now }
{
    matches!(name, "name" | "file")
}

fn name_in(table: &Table) -> Option<&str>
    ensures { option_map (λ name. name.now) result ≡ maps_of.name_in (table_view table.now) }
{
    let name = text_at(table, "name")?;
    if is_map_name(name.as_bytes()) {
        Some(name)
    } else {
        None
    }
}

fn is_map_name(text: &[u8]) -> bool
    ensures { result ≡ maps_of.is_map_name text.now }
{
    !text.is_empty() && are_name_octets(text)
}

fn are_name_octets(mut text: &[u8]) -> bool
    ensures { result ≡ list_all is_octet text.entry.now }
{
    while let [octet, rest @ ..] = text {
        if !is_name_octet(*octet) {
            return false;
        }
        text = rest;
    }
    true
}

fn is_name_octet(octet: u8) -> bool
    ensures { result ≡ is_octet octet }
{
    octet.is_ascii_alphanumeric() || octet == b'_' || octet == b'-'
}

// Whether one of some maps has the name.
fn has_name(name: &str, mut maps: &[NamedMap]) -> bool
    ensures { result ≡ maps_of.has_name name.now (map map_value maps.entry.now) }
{
    while let [first, rest @ ..] = maps {
        if first.name.as_str() == name {
            return true;
        }
        maps = rest;
    }
    false
}
