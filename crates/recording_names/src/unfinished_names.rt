//! The names of files that aren't finished.

ghost use Rattle.std.specs.Prelude.{◌≡◌, IfNone, IfOk, IfSome};
ghost use Rattle.std.specs.String.{string_bytes};
ghost use Rattle.recording_names.specs.UnfinishedNames.{IsUnfinishedName, name_of_unfinished};

use crate::decimals::decimal_number;
use crate::period::{CALENDAR_END, Period};
use std::alloc::{AllocError, Global};

/// What the name of an unfinished file tells.
#[derive(Clone, Copy, Debug)]
pub struct UnfinishedName<'a> {
    /// The file's period.
    pub period: Period,
    /// The name of the session that wrote it.
    pub session: &'a str,
}

/// The name of a file that isn't finished: the beginning of its period, in seconds since 1970, and the
/// name of its session.
pub fn unfinished_name(alloc: Global, period: Period, session: &str) -> Result<String, AllocError>
    ensures { IfOk result (λ text.
        string_bytes text ≡ name_of_unfinished period.begins session.now) }
{
    let begins = period.begins;
    format!(in alloc; "{begins}-{session}")
}

/// The period and the session that a name tells, if it is the name of an unfinished file.
pub fn read_unfinished_name(name: &str) -> Option<UnfinishedName<'_>>
    ensures some { IfSome result (λ u.
        name.now ≡ name_of_unfinished u.period.begins u.session.now) }
    ensures none { IfNone result (¬ IsUnfinishedName name.now) }
{
    let (digits, session) = name.split_once('-')?;
    let begins = decimal_number(digits)?;
    if begins >= CALENDAR_END {
        return None;
    }
    Some(UnfinishedName {
        period: Period { begins },
        session,
    })
}
