//! Writing a receipt.

ghost use Rattle.std.specs.Prelude.{◌≡◌, codes, IfOk};
ghost use Rattle.sha2.specs.Sha256.{sha256};
ghost use Rattle.table_receipts.specs.Appending.{WritesAll, WritesMember};
ghost use Rattle.table_receipts.specs.Values.{receipt_value};
ghost use Rattle.table_receipts.specs.Objects.{content_members, origin_members, plan_json, sha256_member, version_members};
ghost use Rattle.table_receipts.specs.Texts.{receipt_text, text_before};

use crate::parts::{
    write_counts, write_digest_member, write_ending, write_files, write_inputs,
    write_number_member, write_table, write_text_member,
};
use crate::receipt::Receipt;
use json::Writer;
use sha2::{Digest, Sha256};
use std::alloc::{AllocError, Global};

// The version of the text's form.
const VERSION: u128 = 1;

fn sha256_of(octets: &[u8]) -> [u8; 32]
    ensures { result ≡ sha256 octets.now }
{
    Sha256::digest(octets)
}

// Writes the digest of a text.
fn write_digest_of(alloc: Global, writer: &mut Writer, text: &[u8]) -> Result<(), AllocError>
    ensures { WritesMember result writer.old writer.new (sha256_member text.now) }
{
    write_digest_member(alloc, writer, "sha256", &sha256_of(text))
}

// Writes the plan's text and its digest.
#[tactic(auto, unfolding(crate::specs::Objects::plan_json))]
fn write_plan(alloc: Global, writer: &mut Writer, plan: &str) -> Result<(), AllocError>
    ensures { WritesMember result writer.old writer.new (codes "plan", plan_json plan.now) }
{
    writer.key("plan")?;
    writer.begin_object()?;
    write_text_member(writer, "text", plan)?;
    write_digest_of(alloc, writer, plan.as_bytes())?;
    writer.end_object()
}

// Writes the version of the form, and that of collectd.
fn write_versions(writer: &mut Writer, collectd: &str) -> Result<(), AllocError>
    ensures { WritesAll result writer.old writer.new (version_members collectd.now) }
{
    write_number_member(writer, "receipt", VERSION)?;
    write_text_member(writer, "collectd", collectd)
}

// Writes who made the table, and under which plan.
fn write_origin(alloc: Global, writer: &mut Writer, receipt: &Receipt) -> Result<(), AllocError>
    ensures { WritesAll result writer.old writer.new (origin_members (receipt_value receipt.now)) }
{
    write_versions(writer, receipt.collectd.as_str())?;
    write_plan(alloc, writer, receipt.plan.as_str())?;
    writer.key("elements")?;
    write_files(alloc, writer, &receipt.elements)?;
    writer.key("maps")?;
    write_files(alloc, writer, &receipt.maps)
}

// Writes what the table was made of, and what it is.
fn write_contents(alloc: Global, writer: &mut Writer, receipt: &Receipt) -> Result<(), AllocError>
    ensures { WritesAll result writer.old writer.new (content_members (receipt_value receipt.now)) }
{
    writer.key("inputs")?;
    write_inputs(alloc, writer, &receipt.inputs)?;
    writer.key("records")?;
    write_counts(writer, &receipt.records)?;
    writer.key("table")?;
    write_table(alloc, writer, &receipt.table)?;
    write_ending(writer, &receipt.left_out, receipt.complete)
}

// The text before the last member.
#[tactic(auto, unfolding(crate::specs::Texts::text_before))]
fn front_of(alloc: Global, receipt: &Receipt) -> Result<Vec<u8>, AllocError>
    ensures { IfOk result (λ text. text.items ≡ text_before (receipt_value receipt.now)) }
{
    let mut writer = Writer::new(Vec::new(alloc));
    writer.begin_object()?;
    write_origin(alloc, &mut writer, receipt)?;
    write_contents(alloc, &mut writer, receipt)?;
    Ok(writer.into_inner())
}

/// The text of a receipt, in JSON (RFC 8259). Its last member is the SHA-256 of all before it.
#[tactic(auto, unfolding(crate::specs::Texts::receipt_text, crate::specs::Texts::receipt_json))]
pub fn write_receipt(alloc: Global, receipt: &Receipt) -> Result<Vec<u8>, AllocError>
    ensures { IfOk result (λ text. text.items ≡ receipt_text (receipt_value receipt.now)) }
{
    let mut text = front_of(alloc, receipt)?;
    let digest = sha256_of(text.as_slice());
    text.push(b',')?;
    let mut writer = Writer::new(text);
    write_digest_member(alloc, &mut writer, "sha256", &digest)?;
    writer.end_object()?;
    Ok(writer.into_inner())
}
