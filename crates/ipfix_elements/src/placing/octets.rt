//! Octets as they are.

ghost use Rattle.std.specs.Prelude.{◌+◌, ◌≤◌, length};
ghost use Rattle.ipfix_elements.specs.Placed.{Placed};

/// Puts octets to a place, and answers where they end.
#[inline(always)]
pub fn place(octets: &[u8], room: &mut [u8], at: usize) -> usize
    requires { at + length octets.now ≤ length room.old }
    ensures { Placed room.old room.new at octets.now result }
{
    let end = at + octets.len();
    room[at..end].copy_from_slice(octets);
    end
}
