//! The sink of a dump.

ghost use Rattle.std.specs.Prelude.{◌≡◌, None, OnOk};
ghost use Rattle.std.specs.Io.KnownBytes.{Appends};
ghost use Rattle.ipfix_dump.specs.Lines.{line_of};

use crate::fault::DumpFault;
use crate::line::Line;
use ipfix_message::DataRecord;
use ipfix_session::Sink;
use std::io::Write;

/// A sink that writes the line of each record. It gives a record back if its line could not be
/// made or written, and keeps the fault.
#[derive(Drop)]
pub struct LineSink<'a, 'e, W: Write> {
    line: &'a mut Line<'e>,
    out: &'a mut W,
    refused: u64,
    pub fault: Option<DumpFault>,
    ghost kept: { fault ≡ None → refused ≡ 0 },
}

impl<'a, 'e, W: Write> LineSink<'a, 'e, W> {
    /// A sink that makes its lines by `line`.
    pub fn new(line: &'a mut Line<'e>, out: &'a mut W) -> Self
        ensures same_line { result.line.now ≡ line.old }
        ensures same_writer { result.out.ghost_name ≡ out.entry.ghost_name }
        ensures nothing_written { result.out.now ≡ out.old }
    {
        LineSink {
            line,
            out,
            refused: 0,
            fault: None,
        }
    }

    // Writes the line of a record in one piece.
    fn write_line(&mut self, data_record: &DataRecord) -> Result<(), DumpFault>
        ensures same_lines { line_of self.new.line.now ≡ line_of self.old.line.now }
        ensures same_writer { self.new.out.ghost_name ≡ self.old.out.ghost_name }
        ensures none_refused { self.new.refused ≡ self.old.refused }
        ensures no_fault { self.new.fault ≡ self.old.fault }
        ensures ok { OnOk result
            (Appends (W.contents self.old.out.now) (W.contents self.new.out.now)
            (line_of self.old.line.now data_record.now)) }
    {
        self.line.make(data_record)?;
        self.out.write_all(self.line.as_slice())?;
        Ok(())
    }
}

impl<W: Write> Sink for LineSink<'_, '_, W> {
    ghost seen = { record {
      took = λ before item after. (after.out.ghost_name ≡ before.out.ghost_name)
          × (line_of after.line.now ≡ line_of before.line.now)
          × Appends (W.contents before.out.now) (W.contents after.out.now) (line_of before.line.now item);
      refused = λ s. s.refused;
    } };

    fn put(&mut self, item: DataRecord) -> Result<(), DataRecord> {
        match self.write_line(&item) {
            Ok(()) => Ok(()),
            Err(fault) => {
                self.refused = self.refused.saturating_add(1);
                self.fault = Some(fault);
                Err(item)
            }
        }
    }
}
