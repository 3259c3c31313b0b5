//! Recording a text in memory, and reading a file.

ghost use Rattle.std.specs.Prelude.{◌<◌};

use crate::calling::record_in_memory;
use ipfix_session::{FromReader, SessionFault, VecSink, drive};
use recording_files::{MemoryFiles, RecordedSession};
use std::alloc::{AllocError, Global};

/// Records a text. The clock tells that the period is over after each read, or after none.
pub fn run(
    alloc: Global,
    text: &[u8],
    piece: usize,
    is_over: bool,
    room: usize,
) -> Result<(MemoryFiles, RecordedSession), AllocError>
    requires { 0 < piece }
{
    let mut answers = Vec::new(alloc);
    for _ in 0..1000 {
        answers.push(is_over)?;
    }
    let text = Vec::from_slice(alloc, text)?;
    Ok(record_in_memory(alloc, text, piece, room, answers))
}

/// What a text gives: how many records, and for the domains 1, 2 and 3 how many came, how many were lost,
/// and the steps backward.
#[derive(Clone, Copy, Debug, PartialEq, Eq)]
pub struct Sums {
    pub records: usize,
    pub domains: [[u64; 3]; 3],
    pub fault: Option<SessionFault>,
}

/// Nothing yet.
pub const NOTHING: Sums = Sums {
    records: 0,
    domains: [[0; 3]; 3],
    fault: None,
};

/// Reads a file by itself, and adds what it gives.
pub fn add_file(alloc: Global, file: &[u8], sums: &mut Sums) {
    let mut source = FromReader::new(file);
    let mut sink = VecSink::new(alloc);
    let report = drive(alloc, &mut source, &mut sink, 1000);
    sums.records = sums.records.saturating_add(sink.records.len());
    for of_domain in &report.domains {
        let place = (of_domain.domain as usize).saturating_sub(1);
        if let Some(of_all) = sums.domains.get_mut(place) {
            of_all[0] = of_all[0].saturating_add(of_domain.count);
            of_all[1] = of_all[1].saturating_add(of_domain.lost);
            of_all[2] = of_all[2].saturating_add(of_domain.backward);
        }
    }
    if report.fault.is_some() {
        sums.fault = report.fault;
    }
}

/// What the files give together.
pub fn sums_of(alloc: Global, files: &MemoryFiles) -> Sums {
    let mut sums = NOTHING;
    for file in files.finished.iter() {
        add_file(alloc, file.as_slice(), &mut sums);
    }
    add_file(alloc, files.unfinished.as_slice(), &mut sums);
    sums
}

/// The files one after another.
pub fn together(alloc: Global, files: &MemoryFiles) -> Result<Vec<u8>, AllocError> {
    let mut text = Vec::new(alloc);
    for file in files.finished.iter() {
        text.extend_from_slice(file.as_slice())?;
    }
    text.extend_from_slice(files.unfinished.as_slice())?;
    Ok(text)
}
