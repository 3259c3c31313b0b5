//! A folder of recordings, as it is listed.

use recording_names::Period;
use report_writing::Reason;

/// A folder of recordings.
pub trait Recordings {
    ghost use Rattle.std.specs.Prelude.{◌≡◌, ℕ, List, Option, None, Some, IfErr, IfOk, OnErr};
    ghost use Rattle.report_writing.specs.declared.reason.Reason.{Reason};
    ghost use Rattle.period_tables.specs.Listings.{Listing, ListsPeriod, ListsUnfinished};

    /// What was listed, in this order, if it shows that.
    ghost listed: { Self → Option (List Listing) };

    /// Whether it can't list the folder of a period, by its beginning, or that of unfinished files, for this reason.
    ghost refuses: { Self → Option ℕ → Reason → Type 0 };

    /// The names in the folder of what isn't finished.
    fn unfinished(&mut self) -> Result<Vec<String>, Reason>
        ensures ok { IfOk result (λ names. ListsUnfinished listed self.old self.new names.items) }
        ensures err { OnErr result (listed self.new ≡ listed self.old) }
        ensures reason { IfErr result (refuses self.new None) };

    /// The names in the folder of a period.
    fn files(&mut self, period: Period) -> Result<Vec<String>, Reason>
        ensures ok { IfOk result (λ names.
            ListsPeriod listed self.old self.new period.begins names.items) }
        ensures err { OnErr result (listed self.new ≡ listed self.old) }
        ensures reason { IfErr result (refuses self.new (Some period.begins)) };
}
