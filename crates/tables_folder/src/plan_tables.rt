//! The tables of a plan in a folder on the disk.

ghost use Rattle.std.specs.Prelude.{◌≡◌};
ghost use Rattle.std.specs.IoError.{error_kind};
ghost use Rattle.tables_folder.specs.ReceiptFiles.{unread_reason};

use crate::plan_names::{TablesOf, table_path};
use crate::receipt_files::{files_in, is_receipt_of};
use crate::recordings_folder::{days_in, table_periods_in};
use crate::removing::sync_folder;
use period_tables::TablePlace;
use recording_folder::Folder;
use recording_names::Period;
use report_writing::Reason;
use std::alloc::AllocError;
use std::fs::{self, OpenFile};
use std::io::{self, ErrorKind, Write};

/// The name of a text that isn't whole, in the folder of what isn't finished.
const TEXT: &str = "text";

/// What is appended to the path of a table for that of its receipt.
const RECEIPT: &str = ".receipt";

/// What is appended to the path of a receipt as long as its table may not have its name yet.
const NEXT: &str = ".next";

/// The file in the folder of a plan's tables that has the plan's text.
const PLAN: &str = ".plan";

/// The tables of a plan in a folder of tables on the disk.
#[derive(Drop)]
pub struct PlanTables<'r> {
    rt: &'r HostRuntime,
    folder: &'r Folder,
    // The path of the folder of the plan's tables.
    path: String,
    // The plan's text.
    plan: &'r str,
    // What the tables are of.
    of: TablesOf,
    // What the name of a table ends with.
    ending: &'static str,
}

/// Why the tables of a plan can't be put into a folder.
#[derive(Debug, Drop)]
pub enum PlanFault {
    /// Those that are there are of another plan of that name.
    OtherPlan,
    NotHad(io::Error),
}

impl<'r> PlanTables<'r> {
    ghost use Rattle.std.specs.Prelude.{IfOk, string_bytes};
    ghost use Rattle.tables_folder.specs.PlanPlaces.{HasTablesOf, IsFolderOf};

    /// The tables of periods, of days or of months of a plan of this name and this text in a folder, with names of this ending.
    /// Nothing is written; those that are there are of no other plan.
    pub fn open(
        rt: &'r HostRuntime,
        folder: &'r Folder,
        name: &str,
        plan: &'r str,
        of: TablesOf,
        ending: &'static str,
    ) -> Result<Self, PlanFault>
        ensures tables { IfOk result (HasTablesOf of ending.now) }
        ensures folder { IfOk result (IsFolderOf (string_bytes folder.now.path) name.now plan.now) }
    {
        let Ok(path) = format!(in rt.alloc(); "{}/{name}", folder.path()) else {
            return Err(PlanFault::NotHad(io::Error::from(ErrorKind::OutOfMemory)));
        };
        let tables = PlanTables {
            rt,
            folder,
            path,
            plan,
            of,
            ending,
        };
        match tables.plan_text() {
            Ok(Some(text)) if text.as_slice() != plan.as_bytes() => Err(PlanFault::OtherPlan),
            Ok(_) => Ok(tables),
            Err(error) => Err(PlanFault::NotHad(error)),
        }
    }

    /// Gives their folder the plan's text, if it has none. It is made if it isn't there.
    pub fn keep_plan(&self) -> Result<(), PlanFault> {
        match self.write_plan() {
            Ok(()) => Ok(()),
            Err(error) => Err(PlanFault::NotHad(error)),
        }
    }

    /// The periods whose tables in IPFIX are there, in order.
    pub fn periods(&self) -> io::Result<Vec<Period>> {
        let mut periods = Vec::new(self.rt.alloc());
        for day in &days_in(self.rt, self.path.as_str())? {
            for period in table_periods_in(self.rt, self.path.as_str(), day.as_str())? {
                periods.push(period)?;
            }
        }
        Ok(periods)
    }

    fn write_plan(&self) -> io::Result<()> {
        if self.plan_text()?.is_some() {
            return Ok(());
        }
        let path = self.plan_path()?;
        self.put_text(path.as_str(), self.plan.as_bytes())
    }

    fn plan_path(&self) -> Result<String, AllocError> {
        format!(in self.rt.alloc(); "{}/{PLAN}", self.path.as_str())
    }

    // The text of the plan of the tables that are there, if their folder has one.
    fn plan_text(&self) -> io::Result<Option<Vec<u8>>> {
        let path = self.plan_path()?;
        match fs::read(self.rt, path.as_str()) {
            Ok(text) => Ok(Some(text)),
            Err(error) if error.kind() == ErrorKind::NotFound => Ok(None),
            Err(error) => Err(error),
        }
    }

    // The path of the receipt of a period.
    fn receipt_path(&self, period: Period) -> Result<String, AllocError> {
        let table = self.table_path(period)?;
        format!(in self.rt.alloc(); "{}{RECEIPT}", table.as_str())
    }

    // The text of the receipt of a period, if it has one.
    fn receipt_text(&self, period: Period) -> io::Result<Option<String>> {
        self.settle(period)?;
        let path = self.receipt_path(period)?;
        match fs::read_to_string(self.rt, path.as_str()) {
            Ok(text) => Ok(Some(text)),
            Err(error) if error.kind() == ErrorKind::NotFound => Ok(None),
            Err(error) => Err(error),
        }
    }

    // The octets of the table of a period.
    fn table_octets(&self, period: Period) -> io::Result<Vec<u8>> {
        let path = self.table_path(period)?;
        fs::read(self.rt, path.as_str())
    }

    // Ends what a run that stopped began for a period: if the next receipt is that of the table that is there, it becomes the
    // receipt, and otherwise it is removed.
    fn settle(&self, period: Period) -> io::Result<()> {
        let receipt = self.receipt_path(period)?;
        let next = format!(in self.rt.alloc(); "{}{NEXT}", receipt.as_str())?;
        let text = match fs::read_to_string(self.rt, next.as_str()) {
            Ok(text) => text,
            Err(error) if error.kind() == ErrorKind::NotFound => return Ok(()),
            Err(error) => return Err(error),
        };
        if self.stands_with(period, text.as_str())? {
            fs::rename(self.rt, next.as_str(), receipt.as_str())?;
        } else {
            fs::remove_file(self.rt, next.as_str())?;
        }
        self.sync_down_to(receipt.as_str())
    }

    // Whether this text is the receipt of the table of a period.
    fn stands_with(&self, period: Period, receipt_text: &str) -> io::Result<bool> {
        let path = self.table_path(period)?;
        match fs::read(self.rt, path.as_str()) {
            Ok(table) => Ok(is_receipt_of(self.rt.alloc(), receipt_text, &table)?),
            Err(error) if error.kind() == ErrorKind::NotFound => Ok(false),
            Err(error) => Err(error),
        }
    }

    // Puts the table of a period and its receipt: the receipt whole under another name, then the table, and then the receipt
    // gets its name.
    fn put_both(&self, period: Period, text: &[u8], receipt_text: &[u8]) -> io::Result<()> {
        let table = self.table_path(period)?;
        let receipt = self.receipt_path(period)?;
        let next = format!(in self.rt.alloc(); "{}{NEXT}", receipt.as_str())?;
        self.put_text(next.as_str(), receipt_text)?;
        self.put_text(table.as_str(), text)?;
        fs::rename(self.rt, next.as_str(), receipt.as_str())?;
        self.sync_down_to(receipt.as_str())
    }

    // Puts a text under a path: whole, or nothing.
    fn put_text(&self, path: &str, text: &[u8]) -> io::Result<()> {
        if let Some((folder, _)) = path.rsplit_once('/') {
            fs::create_dir_all(self.rt, folder)?;
        }
        let unfinished = format!(in self.rt.alloc(); "{}/{TEXT}", self.folder.unfinished())?;
        let put = self.move_text(unfinished.as_str(), path, text);
        if put.is_err() {
            // (what is left there is replaced by the next text)
            let _ = fs::remove_file(self.rt, unfinished.as_str());
        }
        put
    }

    // Writes a text under a path, brings it to the disk, and gives it another path.
    fn move_text(&self, unfinished: &str, path: &str, text: &[u8]) -> io::Result<()> {
        let mut file = fs::create(self.rt, unfinished)?;
        file.write_all(text)?;
        file.sync_all()?;
        fs::rename(self.rt, unfinished, path)?;
        self.sync_down_to(path)
    }

    // Brings the names on the way from the folder of tables to a file to the disk.
    fn sync_down_to(&self, path: &str) -> io::Result<()> {
        let Some((day, _)) = path.rsplit_once('/') else {
            return Ok(());
        };
        sync_folder(self.rt, day)?;
        sync_folder(self.rt, self.path.as_str())?;
        sync_folder(self.rt, self.folder.path())
    }
}

impl<'r> TablePlace for PlanTables<'r> {
    ghost use Rattle.std.specs.Prelude.{⊤};
    ghost use Rattle.tables_folder.specs.PlanNames.{HasPath};

    ghost seen = { record {
      text_at = λ _ _ _. ⊤;
      receipt_at = λ _ _ _. ⊤;
      path_at = λ tables begins path. HasPath tables.of tables.path tables.ending.now begins path;
      refuses = λ _ _ _. ⊤;
    } };

    fn table_path(&self, period: Period) -> Result<String, AllocError> {
        table_path(self.rt.alloc(), &self.path, self.of, period, self.ending)
    }

    fn receipt_files(&mut self, period: Period) -> Result<Option<Vec<String>>, Reason> {
        match self.receipt_text(period) {
            Ok(text) => files_in(self.rt.alloc(), &text, self.plan),
            Err(error) => Err(reason_of_unread(&error)),
        }
    }

    fn standing_receipt(&self, period: Period) -> Result<Option<Vec<u8>>, Reason> {
        match self.receipt_text(period) {
            Ok(Some(text)) => Ok(Some(text.into_bytes())),
            Ok(None) => Ok(None),
            Err(error) => Err(reason_of_unread(&error)),
        }
    }

    fn standing_table(&self, period: Period) -> Result<Vec<u8>, Reason> {
        match self.table_octets(period) {
            Ok(octets) => Ok(octets),
            Err(error) => Err(Reason::of(&error)),
        }
    }

    fn put(&mut self, period: Period, text: &[u8], receipt_text: &[u8]) -> Result<(), Reason> {
        match self.put_both(period, text, receipt_text) {
            Ok(()) => Ok(()),
            Err(error) => Err(Reason::of(&error)),
        }
    }
}

// Why a receipt isn't read. (One that is no text isn't valid.)
fn reason_of_unread(error: &io::Error) -> Reason
    ensures { result ≡ unread_reason (error_kind error.now) }
{
    match error.kind() {
        ErrorKind::InvalidData => Reason::NotValid,
        kind => Reason::by_kind(kind),
    }
}
