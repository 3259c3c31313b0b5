//! Paths by their places.

ghost use Rattle.std.specs.Prelude.{◌≡◌, [], slice_index_or, IfOk};
ghost use Rattle.period_collect.specs.LeftOutFiles.{AreTextsAt, is_among, kept_of as others_of, places_kept};
ghost use Rattle.period_collect.specs.Paths.{texts_of};

use std::alloc::{AllocError, Global};

/// The paths that are at none of these places, in their order.
pub(crate) fn kept_of<'a>(
    alloc: Global,
    paths: &[&'a str],
    out: &[usize],
) -> Result<Vec<&'a str>, AllocError>
    ensures { IfOk result (λ kept. texts_of kept.items ≡ others_of out.now (texts_of paths.now)) }
{
    let mut kept = Vec::new(alloc);
    for place in 0..paths.len() {
        if !is_out(out, place) {
            kept.push(paths[place])?;
        }
    }
    Ok(kept)
}

fn is_out(out: &[usize], place: usize) -> bool
    ensures { result ≡ is_among out.now place }
{
    out.contains(&place)
}

/// The places below a count that are none of these, in their order.
pub(crate) fn kept_places(
    alloc: Global,
    count: usize,
    out: &[usize],
) -> Result<Vec<usize>, AllocError>
    ensures { IfOk result (λ kept. kept.items ≡ places_kept out.now count) }
{
    let mut kept = Vec::new(alloc);
    for place in 0..count {
        if !is_out(out, place) {
            kept.push(place)?;
        }
    }
    Ok(kept)
}

/// The place that has a number, counted from 0.
pub(crate) fn place_at(places: &[usize], number: usize) -> usize
    ensures { result ≡ slice_index_or places.now number 0 }
{
    if number < places.len() {
        places[number]
    } else {
        0
    }
}

/// The paths at these places, in the order of the places.
pub(crate) fn names_at(
    alloc: Global,
    paths: &[&str],
    out: &[usize],
) -> Result<Vec<String>, AllocError>
    ensures { IfOk result (λ names. AreTextsAt out.now paths.now names.items) }
{
    let mut names = Vec::new(alloc);
    for place in out {
        names.push(String::from_str(alloc, path_at(paths, *place))?)?;
    }
    Ok(names)
}

/// The path at a place.
pub(crate) fn path_at<'a>(paths: &[&'a str], place: usize) -> &'a str
    ensures { result.now ≡ slice_index_or (texts_of paths.now) place [] }
{
    if place < paths.len() {
        paths[place]
    } else {
        ""
    }
}
