//! The caller that `CALLING.md` of `ipfix_session` shows.

ghost use Rattle.std.specs.Prelude.{◌≡◌, ℕ, List, Some, IfOk};
ghost use Rattle.ipfix_session.specs.Given.{records_of, stop_of};
ghost use Rattle.ipfix_session.specs.declared.stop.Stop.TheVariants.{Clean};

use ipfix_message::DataRecord;
use ipfix_session::laws::{driven_is_given, no_fault_is_all};
use ipfix_session::{FromReader, READ_LIMIT, SessionFault, VecSink, drive};
use std::alloc::Global;
use std::io::Read;

/// The data records of an input that is whole messages, none of them malformed.
pub fn records_in<R: Read + Drop>(alloc: Global, input: R) -> Result<Vec<DataRecord>, SessionFault>
    ensures { IfOk result (λ records. (text : List ℕ) → R.remaining input ≡ Some text
        → (stop_of text ≡ Clean) × (records.items ≡ records_of text)) }
{
    driven_is_given::<FromReader<R>, VecSink>();
    no_fault_is_all::<FromReader<R>>();
    let mut source = FromReader::new(input);
    let mut sink = VecSink::new(alloc);
    let report = drive(alloc, &mut source, &mut sink, READ_LIMIT);
    match report.fault {
        None => Ok(sink.records),
        Some(fault) => Err(fault),
    }
}
