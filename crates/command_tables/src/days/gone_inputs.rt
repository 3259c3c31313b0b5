//! The inputs of a day's receipt that the receipts of its parts don't have any more.

ghost use Rattle.std.specs.Prelude.{◌≡◌, map, string_bytes};
ghost use Rattle.std.specs.Option.{option_map};
ghost use Rattle.table_receipts.specs.Values.{file_value, input_value};
ghost use Rattle.command_tables.specs.GoneInputs as gone;

use table_receipts::{FileReceipt, InputReceipt};

/// The first of some inputs that is neither among others, where both are in the same order, nor has one of these names.
pub(crate) fn first_gone<'a>(
    own: &'a [InputReceipt],
    others: &[InputReceipt],
    names: &[String],
) -> Option<&'a InputReceipt>
    ensures { option_map (λ input. input_value input.now) result
        ≡ gone.first_gone (gone.not_left_out (map string_bytes names.now) (map input_value own.now))
        (map input_value others.now) }
{
    let mut left = own;
    let mut rest = others;
    while let Some((input, later)) = left.split_first() {
        if has_one_of(names, input) {
            left = later;
            continue;
        }
        let Some((other, after)) = rest.split_first() else {
            return Some(input);
        };
        if is_same(&input.file, &other.file) {
            left = later;
        }
        rest = after;
    }
    None
}

// Whether an input has one of these names.
fn has_one_of(names: &[String], input: &InputReceipt) -> bool
    ensures { result ≡ gone.has_one_of (map string_bytes names.now) (input_value input.now) }
{
    let mut left = names;
    while let Some((name, rest)) = left.split_first() {
        if name.as_str() == input.file.name.as_str() {
            return true;
        }
        left = rest;
    }
    false
}

fn is_same(file: &FileReceipt, other: &FileReceipt) -> bool
    ensures { result ≡ gone.is_same (file_value file.now) (file_value other.now) }
{
    file.name.as_str() == other.name.as_str()
        || (file.octets == other.octets && file.sha256 == other.sha256)
}
