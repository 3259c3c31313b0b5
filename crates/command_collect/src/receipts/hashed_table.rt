//! Writing a table whose text is hashed.

ghost use Rattle.std.specs.Prelude.{◌≡◌, ◌↔◌, List, ℕ, Option, None, IsErrOf};
ghost use Rattle.flow_export.specs.AnyTables.{table_in};
ghost use Rattle.flow_table.specs.Fitting.{FitsPlan};
ghost use Rattle.command_collect.specs.HashedTables.{HasDigestOfTable, HasTooMany, WritesHashed};
ghost use Rattle.command_collect.specs.Hashing.{HasWritten};

use element_registry::Elements;
use flow_export::{AnyTable, ExportFault};
use flow_table::Plan;
use output_tables::{Output, export};
use sha2::{Digest, Sha256};
use std::alloc::Global;
use std::io::{self, Write};
use std::marker::{Brand, PhantomData};

/// How many octets a text has, and their SHA-256 (FIPS 180-4).
#[derive(Clone, Copy, Debug, PartialEq, Eq)]
pub struct TextDigest {
    pub octets: u64,
    pub sha256: [u8; 32],
}

/// A writer that was written to, and the digest of the table that it was given, or why it was given none.
#[derive(Drop)]
pub struct WrittenTable<W> {
    pub out: W,
    pub answer: Result<TextDigest, ExportFault>,
}

// What a writer held before its first octet was hashed.
trait Held {
    ghost contents: { Option (List ℕ) };
}

impl Held for Brand {
    ghost contents = { None };
}

// A writer whose octets are hashed as it takes them.
#[derive(Drop)]
struct HashedWriter<W: Write, T: Held> {
    writer: W,
    hasher: Sha256,
    octets: u64,
    held: PhantomData<T>,
    ghost written: { ∥ HasWritten hasher octets T.contents (W.contents writer) ∥₁ },
}

impl<W: Write, T: Held> Write for HashedWriter<W, T> {
    ghost contents = { λ w. W.contents w.writer };

    fn write(&mut self, octets: &[u8]) -> io::Result<usize> {
        let count = self.writer.write(octets)?;
        self.hasher.update(&octets[..count]);
        self.octets = self.octets.saturating_add(count as u64);
        Ok(count)
    }

    fn flush(&mut self) -> io::Result<()> {
        self.writer.flush()
    }
}

/// Does what [`export`] does, and answers the digest of what was written.
pub fn export_hashed<W: Write + Drop>(
    alloc: Global,
    elements: &Elements,
    plan: &Plan,
    table: &AnyTable,
    output: Output,
    out: W,
) -> WrittenTable<W>
    requires { FitsPlan plan.now (table_in table.now) }
    ensures ok { WritesHashed W.contents elements.now plan.now output table.now out result }
    ensures digest { HasDigestOfTable W.contents elements.now plan.now output table.now out result }
    ensures many { IsErrOf result.answer ExportFault.TooManyRows ↔ HasTooMany output table.now }
    ensures untouched { IsErrOf result.answer ExportFault.TooManyRows → result.out ≡ out }
{
    export_from::<W, Brand>(alloc, elements, plan, table, output, out)
}

// The same of a writer that holds what there is at the start.
fn export_from<W: Write + Drop, T: Held>(
    alloc: Global,
    elements: &Elements,
    plan: &Plan,
    table: &AnyTable,
    output: Output,
    out: W,
) -> WrittenTable<W>
    requires fits { FitsPlan plan.now (table_in table.now) }
    requires held { W.contents out ≡ T.contents }
    ensures ok { WritesHashed W.contents elements.now plan.now output table.now out result }
    ensures digest { HasDigestOfTable W.contents elements.now plan.now output table.now out result }
    ensures many { IsErrOf result.answer ExportFault.TooManyRows ↔ HasTooMany output table.now }
    ensures untouched { IsErrOf result.answer ExportFault.TooManyRows → result.out ≡ out }
{
    let mut hashed: HashedWriter<W, T> = HashedWriter {
        writer: out,
        hasher: Sha256::new(),
        octets: 0,
        held: PhantomData,
    };
    let exported = export(alloc, elements, plan, table, output, &mut hashed);
    let HashedWriter {
        writer,
        hasher,
        octets,
        ..
    } = hashed;
    let sha256 = hasher.finalize();
    match exported {
        Ok(()) => WrittenTable {
            out: writer,
            answer: Ok(TextDigest { octets, sha256 }),
        },
        Err(fault) => WrittenTable {
            out: writer,
            answer: Err(fault),
        },
    }
}
