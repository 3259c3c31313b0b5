//! The names of finished files.

ghost use Rattle.std.specs.Prelude.{◌≡◌, ◌≢◌, ℕ, IfNone, IfSome};
ghost use Rattle.recording_names.specs.FinishedNames.{IsCopy, IsFinishedName, copy_text, finished_text};
ghost use Rattle.recording_names.specs.SessionNames.{parts_of};

use crate::decimals::decimal_number;
use crate::session_names::{SessionName, read_parts, split_last};

/// What the name of a finished file says.
#[derive(Clone, Copy, Debug)]
pub struct FinishedName<'a> {
    /// The session that wrote it.
    pub session: SessionName<'a>,
    /// 1, or the number in its name, which it has where others were there already.
    pub copy: u64,
}

/// What a name says, if it is the name of a finished file.
pub fn read_finished_name(name: &str) -> Option<FinishedName<'_>>
    ensures copy { IfSome result (λ told. IsCopy told.copy) }
    ensures named { IfSome result (λ told.
        name.now ≡ finished_text (parts_of told.session) told.copy) }
    ensures none { IfNone result (¬ IsFinishedName name.now) }
{
    let (peer, rest) = split_last(name)?;
    let (number, ending) = rest.split_once('.')?;
    let copy = read_copy(ending)?;
    let session = read_parts(peer, number)?;
    Some(FinishedName { session, copy })
}

// The number that stands before the ending of a name, or 1.
fn read_copy(ending: &str) -> Option<u64>
    ensures copy { IfSome result IsCopy }
    ensures said { IfSome result (λ copy. ending.now ≡ copy_text copy) }
    ensures none { IfNone result ((copy : ℕ) → IsCopy copy → ending.now ≢ copy_text copy) }
{
    if ending == "ipfix" {
        return Some(1);
    }
    let (digits, rest) = ending.split_once('.')?;
    if rest != "ipfix" {
        return None;
    }
    let copy = decimal_number(digits)?;
    if copy < 2 {
        return None;
    }
    Some(copy)
}
