//! The words of keys, which compare as their cells do. Short cells beside one another share a word.

ghost use Rattle.std.specs.Prelude.{◌≡◌, ◌++◌, ◌∷◌, [], ◌<◌, ◌≤◌, ◌&&◌, drop, if◌then◌else◌, length, not, Some, IfOk, OnOk};
ghost use Rattle.std.specs.Int.{to_be_bytes, w64};
ghost use Rattle.std.specs.List.{AllZip};
ghost use Rattle.ipfix_elements.specs.declared.cell.Cell.TheVariants as cells;
ghost use Rattle.ipfix_elements.specs.declared.kind.Kind.TheVariants as kinds_of_cells;
ghost use Rattle.flow_table.specs.Fitting.{IsCellOf};
ghost use Rattle.flow_table.specs.Words.{HasWords, Pushes, begins_pair, cell_from as cell_in, is_short, key_from, key_words, nth, padded, waiting, word_count, words_of_kind};

use ipfix_elements::{Cell, Kind};
use std::alloc::AllocError;

/// Where two short words share one, the first is multiplied by this, and the second is added.
const HALF: u64 = 1 << 32;

/// An IPv6 address, read as a number, is its first word times this, and the second is added.
const WORD: u128 = 1 << 64;

/// The words of a cell: an IPv6 address has two, and all others one. That of at most four octets is short.
#[derive(Clone, Copy)]
pub enum CellWords {
    Short(u32),
    One(u64),
    Two(u64, u64),
}

/// Whether the cells of a kind have a short word.
#[inline(always)]
fn is_short(kind: Kind) -> bool
    ensures { result ≡ is_short kind }
{
    match kind {
        Kind::Unsigned(width) => width.octets() <= 4,
        Kind::Ipv4 => true,
        _ => false,
    }
}

/// How many words the cells of a kind have.
fn words_of_kind(kind: Kind) -> usize
    ensures value { result ≡ words_of_kind kind }
    ensures few { result ≤ 2 }
{
    match kind {
        Kind::Ipv6 => 2,
        _ => 1,
    }
}

/// How many words a cell begins: none if it is short and another waits for it.
fn words_begun(waits: bool, kind: Kind) -> usize
    ensures value { result ≡ (if waits && is_short kind then 0 else words_of_kind kind) }
    ensures few { result ≤ 2 }
{
    if waits && is_short(kind) {
        0
    } else {
        words_of_kind(kind)
    }
}

/// Whether a cell waits for another, to share a word.
fn waits_after(waits: bool, kind: Kind) -> bool
    ensures { result ≡ is_short kind && not waits }
{
    is_short(kind) && !waits
}

/// How many words a key of some kinds has.
pub fn count_words(kinds: &[Kind]) -> usize
    requires { length kinds.now ≤ 8 }
    ensures { result ≡ word_count kinds.now }
{
    let mut count = 0;
    let mut waits = false;
    for kind in kinds {
        count += words_begun(waits, *kind);
        waits = waits_after(waits, *kind);
    }
    count
}

/// The words of a number.
#[inline(always)]
pub fn number_words(kind: Kind, number: u64) -> CellWords
    requires { IsCellOf kind (cells.Number number) }
    ensures { HasWords kind (cells.Number number) result }
{
    if is_short(kind) {
        CellWords::Short(number as u32)
    } else {
        CellWords::One(number)
    }
}

/// The words of an IPv4 address.
pub fn ipv4_words(address: &[u8; 4]) -> CellWords
    ensures { HasWords kinds_of_cells.Ipv4 (cells.Ipv4 address.now) result }
{
    let [a, b, c, d] = *address;
    CellWords::Short(u32::from_be_bytes([a, b, c, d]))
}

/// The words of a MAC address.
pub fn mac_words(address: &[u8; 6]) -> CellWords
    ensures { HasWords kinds_of_cells.Mac (cells.Mac address.now) result }
{
    let [a, b, c, d, e, f] = *address;
    CellWords::One(u64::from_be_bytes([0, 0, a, b, c, d, e, f]))
}

/// The words of an IPv6 address.
pub fn ipv6_words(address: &[u8; 16]) -> CellWords
    ensures { HasWords kinds_of_cells.Ipv6 (cells.Ipv6 address.now) result }
{
    let number = u128::from_be_bytes(*address);
    CellWords::Two((number / WORD) as u64, (number % WORD) as u64)
}

// The words of a cell.
fn words_of(kind: Kind, cell: &Cell) -> CellWords
    requires { IsCellOf kind cell.now }
    ensures { HasWords kind cell.now result }
{
    match cell {
        Cell::Number(number) => number_words(kind, *number),
        Cell::Ipv4(address) => ipv4_words(address),
        Cell::Ipv6(address) => ipv6_words(address),
        Cell::Mac(address) => mac_words(address),
    }
}

/// Appends the short word that waits for another, if there is one.
#[inline(always)]
pub fn push_half(half: Option<u32>, words: &mut Vec<u64>) -> Result<(), AllocError>
    ensures { OnOk result (words.new.items ≡ words.old.items ++ waiting half) }
{
    if let Some(word) = half {
        words.push(u64::from(word))?;
    }
    Ok(())
}

/// Appends the words of a cell after a short word that waits for another, and answers the one that waits then.
#[inline(always)]
pub fn push_words(
    half: Option<u32>,
    cell: CellWords,
    words: &mut Vec<u64>,
) -> Result<Option<u32>, AllocError>
    ensures { IfOk result (Pushes half cell words.old.items words.new.items) }
{
    match cell {
        CellWords::Short(word) => {
            let Some(first) = half else {
                return Ok(Some(word));
            };
            words.push(u64::from(first) * HALF + u64::from(word))?;
        }
        CellWords::One(word) => {
            push_half(half, words)?;
            words.push(word)?;
        }
        CellWords::Two(high, low) => {
            push_half(half, words)?;
            words.push(high)?;
            words.push(low)?;
        }
    }
    Ok(None)
}

/// Leaves the words of cells, one of each kind, in `words`.
pub fn write_words(kinds: &[Kind], cells: &[Cell], words: &mut Vec<u64>) -> Result<(), AllocError>
    requires { AllZip IsCellOf kinds.now cells.now }
    ensures { OnOk result (key_words kinds.now cells.now ≡ Some words.new.items) }
{
    words.clear();
    let mut half = None;
    for place in 0..cells.len() {
        half = push_words(half, words_of(kinds[place], &cells[place]), words)?;
    }
    push_half(half, words)?;
    Ok(())
}

/// The word at a place, or 0 after the last.
pub fn word_at(words: &[u64], place: usize) -> u64
    ensures { result ≡ nth words.now place }
{
    if place < words.len() { words[place] } else { 0 }
}

/// The words after so many.
pub fn words_after(words: &[u64], count: usize) -> &[u64]
    ensures { result.now ≡ drop count words.now }
{
    if count < words.len() {
        &words[count..]
    } else {
        &[]
    }
}

/// One word and others after it, and then zeros.
pub fn padded_words<const N: usize>(first: u64, others: &[u64]) -> [u64; N]
    ensures { result ≡ padded N (first ∷ others.now) }
{
    let mut words = [0; N];
    for i in 0..N {
        words[i] = if i == 0 {
            first
        } else {
            word_at(others, i - 1)
        };
    }
    words
}

fn ipv4_from(word: u64) -> [u8; 4]
    ensures { result ≡ drop 4 (to_be_bytes w64 word) }
{
    let [_, _, _, _, a, b, c, d] = word.to_be_bytes();
    [a, b, c, d]
}

fn mac_from(word: u64) -> [u8; 6]
    ensures { result ≡ drop 2 (to_be_bytes w64 word) }
{
    let [_, _, a, b, c, d, e, f] = word.to_be_bytes();
    [a, b, c, d, e, f]
}

fn ipv6_from(high: u64, low: u64) -> [u8; 16]
    ensures { result ≡ to_be_bytes w64 high ++ to_be_bytes w64 low }
{
    let [a, b, c, d, e, f, g, h] = high.to_be_bytes();
    let [i, j, k, l, m, n, o, p] = low.to_be_bytes();
    [a, b, c, d, e, f, g, h, i, j, k, l, m, n, o, p]
}

/// The cell of a kind that has these words, the second if it has two.
fn cell_from(kind: Kind, first: u64, second: u64) -> Cell
    ensures { result ≡ cell_in kind first second }
{
    match kind {
        Kind::Ipv4 => Cell::Ipv4(ipv4_from(first)),
        Kind::Ipv6 => Cell::Ipv6(ipv6_from(first, second)),
        Kind::Mac => Cell::Mac(mac_from(first)),
        Kind::Unsigned(_) | Kind::Seconds | Kind::Millis | Kind::Octets => Cell::Number(first),
    }
}

/// Whether the cells of the kind at a place and of the next one share a word.
fn share_word(kinds: &[Kind], place: usize) -> bool
    requires { place < length kinds.now }
    ensures { result ≡ begins_pair (drop place kinds.now) }
{
    if place + 1 >= kinds.len() {
        return false;
    }
    is_short(kinds[place]) && is_short(kinds[place + 1])
}

/// Leaves the cells of kinds, whose words these are, in `cells`.
pub fn write_cells(kinds: &[Kind], words: &[u64], cells: &mut Vec<Cell>) -> Result<(), AllocError>
    ensures { OnOk result (cells.new.items ≡ key_from kinds.now words.now) }
{
    cells.clear();
    let mut rest = words;
    let mut half = None;
    for place in 0..kinds.len() {
        let word = word_at(rest, 0);
        if let Some(second) = half {
            cells.push(cell_from(kinds[place], second, 0))?;
            half = None;
        } else if share_word(kinds, place) {
            cells.push(cell_from(kinds[place], word / HALF, 0))?;
            half = Some(word % HALF);
            rest = words_after(rest, 1);
        } else {
            cells.push(cell_from(kinds[place], word, word_at(rest, 1)))?;
            rest = words_after(rest, words_of_kind(kinds[place]));
        }
    }
    Ok(())
}
