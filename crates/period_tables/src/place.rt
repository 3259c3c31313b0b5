//! A place of tables.

use recording_names::Period;
use report_writing::Reason;
use std::alloc::AllocError;

/// A place of tables and their receipts, by their periods.
pub trait TablePlace {
    ghost use Rattle.std.specs.Prelude.{◌≡◌, IfErr, IfOk, OnErr, OnOk, string_bytes};
    ghost use Rattle.period_tables.specs.Standing.{IsKeptBeside, IsPutAt, IsPutOrKept, NamesFiles, PlaceView, items_of};

    /// What contracts see of it.
    ghost seen: { PlaceView Self };

    /// The path of the table of a period.
    fn table_path(&self, period: Period) -> Result<String, AllocError>
        ensures { IfOk result (λ text. seen.path_at self.now period.begins (string_bytes text)) };

    /// The paths of the files that the receipt of a period names, if it has a receipt, also as left out, but for those that were
    /// not read: a read failed, or memory ran out. If what is there is no receipt, it is an `Err`.
    fn receipt_files(&mut self, period: Period) -> Result<Option<Vec<String>>, Reason>
        ensures ok { IfOk result (NamesFiles (seen.receipt_at self.old period.begins)) }
        ensures kept { self.new ≡ self.old }
        ensures reason { IfErr result (seen.refuses self.new period.begins) };

    /// The text of the receipt of a period, if it has one.
    fn standing_receipt(&self, period: Period) -> Result<Option<Vec<u8>>, Reason>
        ensures ok { IfOk result (λ text. seen.receipt_at self.now period.begins (items_of text)) }
        ensures reason { IfErr result (seen.refuses self.now period.begins) };

    /// The text of the table of a period.
    fn standing_table(&self, period: Period) -> Result<Vec<u8>, Reason>
        ensures ok { IfOk result (λ text. seen.text_at self.now period.begins text.items) }
        ensures reason { IfErr result (seen.refuses self.now period.begins) };

    /// Puts the table of a period and its receipt. After an `Err` either both stand, or both are as they were.
    fn put(&mut self, period: Period, text: &[u8], receipt: &[u8]) -> Result<(), Reason>
        ensures ok { OnOk result (IsPutAt seen period.begins self.new text.now receipt.now) }
        ensures err { OnErr result (IsPutOrKept seen period.begins self.old self.new text.now receipt.now) }
        ensures others { IsKeptBeside seen period.begins self.old self.new }
        ensures reason { IfErr result (seen.refuses self.new period.begins) };
}
