//! Numbers in decimal.

ghost use Rattle.std.specs.Prelude.{◌≡◌, ◌+◌, ◌≤◌, decimal, length};
ghost use Rattle.ipfix_elements.specs.Placed.{Placed};
ghost use Rattle.ipfix_elements.specs.declared.placing.decimal.TheConstants.{MOST_DIGITS};

use itoa::write_digits;

/// The most digits that a number of 64 bits has.
pub const MOST_DIGITS: usize = 20;

/// Puts a number in decimal to a place, and answers where it ends.
#[inline(always)]
pub fn place_decimal(number: u64, room: &mut [u8], at: usize) -> usize
    requires { at + MOST_DIGITS ≤ length room.old }
    ensures { Placed room.old room.new at (decimal number) result }
{
    let end = at + count_digits(number);
    write_digits(number, room, end);
    end
}

// How many digits a number has.
#[inline(always)]
fn count_digits(number: u64) -> usize
    ensures count { result ≡ length (decimal number) }
    ensures few { result ≤ MOST_DIGITS }
{
    if number == 0 {
        1
    } else {
        number.ilog10() as usize + 1
    }
}
