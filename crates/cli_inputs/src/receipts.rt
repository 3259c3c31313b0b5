//! What a receipt says beside the run, and where it is put.

ghost use Rattle.std.specs.Prelude.{⊤};

use crate::arguments::{CollectArguments, TableArguments};
use crate::inputs::{load_from, load_table_plan};
use crate::plan_maps::load_plan_maps;
use crate::receipt_place::is_of_part;
use cli_words::VERSION;
use command_collect::{MadeWith, ReceiptFault, RunFault, SystemPlace, write_run_fault};
use element_registry::Elements;
use flow_maps::Maps;
use input_files::{ReadText, load_elements};
use input_sources::LoadedPlan;
use receipt_maps::MapsOfPlan;
use report_writing::{CheckedWriter, Reason, Status, Verbosity, write_not_had_because};
use sha2::{Digest, Sha256};
use std::alloc::{AllocError, Global};
use std::io::Stderr;
use table_parts::PartFiles;
use table_receipts::FileReceipt;

/// Where a receipt is put, and what it says beside the run.
#[derive(Drop)]
pub struct ReceiptTo<'r> {
    pub place: SystemPlace<'r>,
    pub made: MadeWith,
}

/// A plan, its maps, and its receipt's place, if there is to be one.
#[derive(Drop)]
pub struct PlanAndReceipt<'r> {
    pub loaded: LoadedPlan,
    /// The plan's maps, if it names some.
    pub maps: Option<Maps>,
    pub receipt: Option<ReceiptTo<'r>>,
}

/// What names elements, and what a receipt says of the files of elements among it.
#[derive(Drop)]
pub struct KnownElements {
    pub elements: Elements,
    pub files: Vec<FileReceipt>,
}

/// Loads files of elements. `err` has a line if one can't be had or has a fault.
pub fn load_known(
    rt: &HostRuntime,
    paths: &[&str],
    verbosity: Verbosity,
    err: &mut Stderr,
) -> Result<KnownElements, Status> {
    let alloc = rt.alloc();
    let Ok(texts) = KeptTexts::of(rt, paths, None) else {
        return Err(without_memory(err));
    };
    let mut told = CheckedWriter::new(rt.stderr());
    let elements = load_elements(&texts, alloc, paths, verbosity, &mut told).ok_or(
        Status::NotOpened,
    )?;
    match texts.files(alloc) {
        Ok(files) => Ok(KnownElements { elements, files }),
        Err(AllocError) => Err(without_memory(err)),
    }
}

/// Loads the plan and its maps, and makes the place of its receipt. `err` has a line if it can't be made.
pub fn load_with_receipt<'r>(
    rt: &'r HostRuntime,
    arguments: &CollectArguments,
    err: &mut Stderr,
) -> Result<PlanAndReceipt<'r>, Status> {
    let table = &arguments.table;
    let Some(path) = arguments.receipt else {
        let loaded = load_table_plan(rt, table).ok_or(Status::NotOpened)?;
        let MapsOfPlan { maps, .. } = load_maps_of(rt, table, &loaded)?;
        return Ok(PlanAndReceipt {
            loaded,
            maps,
            receipt: None,
        });
    };
    let PlanMade { loaded, maps, made } = load_plan_made(rt, table, err)?;
    let place = make_place(rt, path, table.verbosity, err)?;
    Ok(PlanAndReceipt {
        loaded,
        maps,
        receipt: Some(ReceiptTo { place, made }),
    })
}

// Makes the place of a receipt. `err` has a line if it can't be made.
fn make_place<'r>(
    rt: &'r HostRuntime,
    path: &str,
    verbosity: Verbosity,
    err: &mut Stderr,
) -> Result<SystemPlace<'r>, Status> {
    match SystemPlace::make(rt, rt.alloc(), path) {
        Ok(place) => Ok(place),
        Err(reason) => {
            let _ = write_not_had_because(verbosity, "open", path, reason, err);
            Err(Status::NotOpened)
        }
    }
}

/// The place of the receipt of the table of these parts, if there is to be one. `err` has a line if it can't be made, or is
/// a file of a part.
pub fn merged_place<'r>(
    rt: &'r HostRuntime,
    receipt: Option<&str>,
    parts: &[PartFiles],
    verbosity: Verbosity,
    err: &mut Stderr,
) -> Result<Option<SystemPlace<'r>>, Status> {
    let Some(path) = receipt else {
        return Ok(None);
    };
    if is_of_part(rt, path, parts) {
        let _ = write_not_had_because(verbosity, "open", path, Reason::NotValid, err);
        return Err(Status::NotOpened);
    }
    let place = make_place(rt, path, verbosity, err)?;
    Ok(Some(place))
}

/// A plan, its maps, and what a receipt says of them.
#[derive(Drop)]
pub struct PlanMade {
    pub loaded: LoadedPlan,
    /// The plan's maps, if it names some.
    pub maps: Option<Maps>,
    pub made: MadeWith,
}

/// Loads the plan and its maps, each file once, with what receipts of its tables say of them. If that can't be, standard error
/// has a line.
pub fn load_plan_made(
    rt: &HostRuntime,
    table: &TableArguments,
    err: &mut Stderr,
) -> Result<PlanMade, Status> {
    let Ok(texts) = KeptTexts::of(rt, table.element_files, Some(table.plan)) else {
        return Err(without_memory(err));
    };
    let loaded = load_from(rt, &texts, table).ok_or(Status::NotOpened)?;
    let MapsOfPlan { maps, files } = load_maps_of(rt, table, &loaded)?;
    match texts.made(rt.alloc(), files) {
        Ok(made) => Ok(PlanMade { loaded, maps, made }),
        Err(AllocError) => Err(without_memory(err)),
    }
}

// The maps of a plan, from the system's files. If there is a fault, standard error has a line.
fn load_maps_of(
    rt: &HostRuntime,
    table: &TableArguments,
    loaded: &LoadedPlan,
) -> Result<MapsOfPlan, Status> {
    let mut err = CheckedWriter::new(rt.stderr());
    load_plan_maps(
        rt,
        rt.alloc(),
        table.plan,
        &loaded.maps,
        table.verbosity,
        &mut err,
    )
}

// There was no memory for what a receipt says.
fn without_memory(err: &mut Stderr) -> Status {
    let _ = write_run_fault(RunFault::Receipt(ReceiptFault::OutOfMemory), err);
    Status::Failed
}

// The text of a file, read once, or why there is none.
#[derive(Drop)]
struct KeptText {
    path: String,
    text: Result<Vec<u8>, Reason>,
}

impl KeptText {
    fn of(rt: &HostRuntime, path: &str) -> Result<KeptText, AllocError> {
        Ok(KeptText {
            path: String::from_str(rt.alloc(), path)?,
            text: rt.read_text(rt.alloc(), path),
        })
    }
}

// The texts of files of elements, and of a plan that is read with them, if there is one.
#[derive(Drop)]
struct KeptTexts {
    plan: Option<KeptText>,
    elements: Vec<KeptText>,
}

impl KeptTexts {
    fn of(
        rt: &HostRuntime,
        element_files: &[&str],
        plan: Option<&str>,
    ) -> Result<KeptTexts, AllocError> {
        let mut elements = Vec::new(rt.alloc());
        for path in element_files {
            elements.push(KeptText::of(rt, path)?)?;
        }
        let plan = match plan {
            Some(path) => Some(KeptText::of(rt, path)?),
            None => None,
        };
        Ok(KeptTexts { plan, elements })
    }

    // The text of a path, which is that of the plan if no file of elements has it.
    fn find(&self, path: &str) -> Option<&KeptText> {
        for kept in &self.elements {
            if kept.path.as_str() == path {
                return Some(kept);
            }
        }
        self.plan.as_ref()
    }

    // What a receipt says of the files of elements.
    fn files(&self, alloc: Global) -> Result<Vec<FileReceipt>, AllocError> {
        let mut files = Vec::with_capacity(alloc, self.elements.len())?;
        for kept in &self.elements {
            files.push(file_of(alloc, kept)?)?;
        }
        Ok(files)
    }

    // What a receipt says of them, and of these files of maps.
    fn made(self, alloc: Global, maps: Vec<FileReceipt>) -> Result<MadeWith, AllocError> {
        let plan = match &self.plan {
            Some(
                KeptText {
                    text: Ok(octets),
                    ..
                },
            ) => String::from_utf8_lossy(alloc, octets)?,
            _ => String::new(alloc),
        };
        Ok(MadeWith {
            collectd: String::from_str(alloc, VERSION)?,
            plan,
            elements: self.files(alloc)?,
            maps,
            left_out: Vec::new(alloc),
        })
    }
}

// A file of elements that was read.
fn file_of(alloc: Global, kept: &KeptText) -> Result<FileReceipt, AllocError> {
    let text: &[u8] = match &kept.text {
        Ok(octets) => octets,
        Err(_) => &[],
    };
    Ok(FileReceipt {
        name: String::from_str(alloc, kept.path.as_str())?,
        octets: text.len() as u64,
        sha256: Sha256::digest(text),
    })
}

impl ReadText for KeptTexts {
    ghost has = { λ _ _ _. ⊤ };

    ghost refuses = { λ _ _ _. ⊤ };

    fn read_text(&self, alloc: Global, path: &str) -> Result<Vec<u8>, Reason> {
        let Some(kept) = self.find(path) else {
            return Err(Reason::NoSuchFile);
        };
        match &kept.text {
            Ok(octets) => match Vec::from_slice(alloc, octets) {
                Ok(copy) => Ok(copy),
                Err(AllocError) => Err(Reason::OutOfMemory),
            },
            Err(reason) => Err(*reason),
        }
    }
}
