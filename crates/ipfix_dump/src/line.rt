//! The line of a data record.

ghost use Rattle.std.specs.Prelude.{◌≡◌, ◌++◌, false, OnOk};
ghost use Rattle.ipfix_message.specs.FieldViews.{field_of};
ghost use Rattle.ipfix_dump.specs.Labelled.{field_by, fields_by};
ghost use Rattle.ipfix_dump.specs.declared.options.Form.TheVariants as forms;

use crate::front::Front;
use crate::labels::Labels;
use crate::line_octets::LineOctets;
use crate::options::{DumpOptions, Form};
use crate::text::{append_json_value, append_value};
use ipfix_message::{DataRecord, FieldRef, Fields};
use std::alloc::{AllocError, Global};

/// Makes the lines of records, one after another. What a record's line has in common with that of
/// the record before it is not made again.
#[derive(Drop)]
pub struct Line<'a> {
    front: Front,
    labels: Labels<'a>,
    octets: LineOctets,
    ghost same_form: { front.form ≡ labels.form },
}

impl<'a> Line<'a> {
    ghost use Rattle.ipfix_dump.specs.Dumped.{line_in};
    ghost use Rattle.ipfix_dump.specs.Lines.{line_of};

    /// No line yet.
    pub fn new(alloc: Global, options: &DumpOptions<'a>) -> Self
        ensures { line_of result ≡ line_in options.now.form options.now.elements.now }
    {
        Line {
            front: Front::new(alloc, options.form),
            labels: Labels::new(alloc, options.elements, options.form),
            octets: LineOctets::new(alloc),
        }
    }

    /// Makes the line of a record. The lines of others stay as they were.
    #[tactic(auto, unfolding(crate::specs::DumpLines::dump_line, crate::specs::JsonLines::json_line))]
    pub fn make(&mut self, data_record: &DataRecord) -> Result<(), AllocError>
        ensures made { OnOk result (self.new.octets ≡ line_of self.old data_record.now) }
        ensures kept { line_of self.new ≡ line_of self.old }
    {
        self.front.renew(data_record)?;
        self.octets.clear();
        self.octets.append(self.front.text.as_slice())?;
        append_fields(&data_record.fields, &mut self.labels, &mut self.octets)?;
        match self.front.form {
            Form::Text => self.octets.append(b"\n"),
            Form::Json => self.octets.append(b"]}\n"),
        }
    }

    /// The line that was made last.
    pub fn as_slice(&self) -> &[u8]
        ensures { result.now ≡ self.now.octets }
    {
        self.octets.as_slice()
    }
}

#[tactic(auto, using(crate::proofs::FieldTexts::fields_text_cons))]
fn append_fields(
    fields: &Fields,
    labels: &mut Labels,
    out: &mut LineOctets,
) -> Result<(), AllocError>
    ensures fields { OnOk result (out.new ≡ out.old ++ fields_by labels.old false fields.now) }
    ensures elements { labels.new.elements.now ≡ labels.old.elements.now }
    ensures form { labels.new.form ≡ labels.old.form }
{
    let mut later = false;
    for field in fields.iter() {
        append_field(later, field, labels, out)?;
        later = true;
    }
    Ok(())
}

// Appends a field; `later` tells whether another one stands before it.
fn append_field(
    later: bool,
    field: FieldRef,
    labels: &mut Labels,
    out: &mut LineOctets,
) -> Result<(), AllocError>
    ensures text { OnOk result
        (out.new ≡ out.old ++ field_by labels.old later (field_of field.entry)) }
    ensures elements { labels.new.elements.now ≡ labels.old.elements.now }
    ensures form { labels.new.form ≡ labels.old.form }
{
    match labels.form {
        Form::Text => append_text_field(field, labels, out),
        Form::Json => append_json_field(later, field, labels, out),
    }
}

fn append_text_field(
    field: FieldRef,
    labels: &mut Labels,
    out: &mut LineOctets,
) -> Result<(), AllocError>
    requires { labels.old.form ≡ forms.Text }
    ensures text { OnOk result
        (out.new ≡ out.old ++ field_by labels.old false (field_of field.entry)) }
    ensures elements { labels.new.elements.now ≡ labels.old.elements.now }
    ensures form { labels.new.form ≡ labels.old.form }
{
    let kind = labels.append(field.element, out)?;
    append_value(kind, field.octets, out)
}

#[tactic(auto, unfolding(crate::specs::JsonLines::json_field))]
fn append_json_field(
    later: bool,
    field: FieldRef,
    labels: &mut Labels,
    out: &mut LineOctets,
) -> Result<(), AllocError>
    requires { labels.old.form ≡ forms.Json }
    ensures text { OnOk result
        (out.new ≡ out.old ++ field_by labels.old later (field_of field.entry)) }
    ensures elements { labels.new.elements.now ≡ labels.old.elements.now }
    ensures form { labels.new.form ≡ labels.old.form }
{
    if later {
        out.append(b",")?;
    }
    let kind = labels.append(field.element, out)?;
    append_json_value(kind, field.octets, out)?;
    out.append(b"}")
}
