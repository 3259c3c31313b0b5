//! The lines and columns of a text.

ghost use Rattle.std.specs.Prelude.{◌≡◌, ◌≤◌, length};
ghost use Rattle.flow_plan.specs.Places.{begins_character as begins_character_by, column_at as column_at_place, line_at as line_at_place};

/// The line in which a place of octets stands, counted from 1.
pub fn line_at(octets: &[u8], place: usize) -> usize
    requires { place ≤ length octets.now }
    ensures { result ≡ line_at_place octets.now place }
{
    let mut line = 1;
    for octet in &octets[..place] {
        if *octet == b'\n' {
            line += 1;
        }
    }
    line
}

/// The column of a place of octets in its line, counted from 1 in characters.
pub fn column_at(octets: &[u8], place: usize) -> usize
    requires { place ≤ length octets.now }
    ensures { result ≡ column_at_place octets.now place }
{
    let mut column = 1;
    for octet in &octets[..place] {
        if *octet == b'\n' {
            column = 1;
        } else if begins_character(*octet) {
            column += 1;
        }
    }
    column
}

// Whether an octet of UTF-8 is the first of a character.
fn begins_character(octet: u8) -> bool
    ensures { result ≡ begins_character_by octet }
{
    octet < 128 || octet >= 192
}
