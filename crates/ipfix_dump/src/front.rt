//! What the lines of the records of a data set begin with.

ghost use Rattle.std.specs.Prelude.{◌≡◌, ◌++◌, true, OnOk, IsTrue};
ghost use Rattle.ipfix_dump.specs.LineParts.{front_of, front_text};
ghost use Rattle.ipfix_dump.specs.declared.options.Form.TheVariants as forms;

use crate::options::Form;
use crate::text::append_labelled;
use ipfix_message::DataRecord;
use std::alloc::{AllocError, Global};

/// The front of a line, kept for the records that follow.
#[derive(Drop)]
pub struct Front {
    pub form: Form,
    made: bool,
    domain: u32,
    template: u16,
    export_time: u32,
    scope: u16,
    pub text: Vec<u8>,
    ghost text_is: { made ≡ true → text.items ≡ front_text form domain template export_time scope },
}

impl Front {
    /// None yet.
    pub fn new(alloc: Global, form: Form) -> Self
        ensures { result.form ≡ form }
    {
        Front {
            form,
            made: false,
            domain: 0,
            template: 0,
            export_time: 0,
            scope: 0,
            text: Vec::new(alloc),
        }
    }

    /// Makes it that of a record's line, unless it is.
    #[inline(always)]
    pub fn renew(&mut self, data_record: &DataRecord) -> Result<(), AllocError>
        ensures text { OnOk result (self.new.text.items ≡ front_of self.old.form data_record.now) }
        ensures form { self.new.form ≡ self.old.form }
    {
        if self.is_of(data_record) {
            return Ok(());
        }
        self.make(data_record)
    }

    fn is_of(&self, data_record: &DataRecord) -> bool
        ensures { IsTrue result → self.now.text.items ≡ front_of self.now.form data_record.now }
    {
        self.made
            && self.domain == data_record.domain
            && self.template == data_record.template
            && self.export_time == data_record.export_time
            && self.scope == data_record.scope
    }

    #[inline(never)]
    fn make(&mut self, data_record: &DataRecord) -> Result<(), AllocError>
        ensures text { OnOk result (self.new.text.items ≡ front_of self.old.form data_record.now) }
        ensures form { self.new.form ≡ self.old.form }
    {
        self.made = false;
        self.text.clear();
        append_front(self.form, data_record, &mut self.text)?;
        self.domain = data_record.domain;
        self.template = data_record.template;
        self.export_time = data_record.export_time;
        self.scope = data_record.scope;
        self.made = true;
        Ok(())
    }
}

fn append_front(form: Form, data_record: &DataRecord, out: &mut Vec<u8>) -> Result<(), AllocError>
    ensures { OnOk result (out.new.items ≡ out.old.items ++ front_of form data_record.now) }
{
    match form {
        Form::Text => append_text_front(data_record, out),
        Form::Json => append_json_front(data_record, out),
    }
}

fn append_text_front(data_record: &DataRecord, out: &mut Vec<u8>) -> Result<(), AllocError>
    ensures { OnOk result (out.new.items ≡ out.old.items ++ front_of forms.Text data_record.now) }
{
    append_labelled("d=", data_record.domain, out)?;
    append_labelled(" t=", u32::from(data_record.template), out)?;
    append_labelled(" x=", data_record.export_time, out)?;
    append_labelled(" s=", u32::from(data_record.scope), out)
}

fn append_json_front(data_record: &DataRecord, out: &mut Vec<u8>) -> Result<(), AllocError>
    ensures { OnOk result (out.new.items ≡ out.old.items ++ front_of forms.Json data_record.now) }
{
    append_labelled("{\"domain\":", data_record.domain, out)?;
    append_labelled(",\"template\":", u32::from(data_record.template), out)?;
    append_labelled(",\"export_time\":", data_record.export_time, out)?;
    append_labelled(",\"scope\":", u32::from(data_record.scope), out)?;
    out.extend_from_slice(b",\"fields\":[")?;
    Ok(())
}
