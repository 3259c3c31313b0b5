//! The messages of the recorder's own in front of a datagram.

ghost use Rattle.std.specs.Prelude.{◌≡◌, ◌≤◌, List, Ok, None, All, length, IfOk, IfErr};
ghost use Rattle.std.specs.BTreeMap.{values};
ghost use Rattle.ipfix_message.specs.Domains.{Message, message_header};
ghost use Rattle.ipfix_message.specs.WrittenTemplates.{IsTemplate};
ghost use Rattle.ipfix_datagrams.specs.Attempts.{OkIfMemory};
ghost use Rattle.ipfix_datagrams.specs.Datagrams.{Preparation};
ghost use Rattle.ipfix_datagrams.specs.Withdrawals.{HasTemplateId};
ghost use Rattle.ipfix_datagrams.specs.declared.withdrawal.TheConstants.{MOST_WITHDRAWN};
ghost use Rattle.recording_files.specs.Recorders.{FailsOn, ForKeeps};
ghost use Rattle.recording_peer.specs.Fronts.{HasAppeared, CanWithdraw, CanDefineNext, Took, TookOne, TookDefinition, TookWithdrawals, TakesDatagram, TakesDefinitions, TookPrepared};

use ipfix_datagrams::{DatagramReading, MOST_WITHDRAWN, WithdrawnTemplate, append_withdrawals};
use ipfix_message::{MessageFault, Stamp, Template, Templates, append_template_message, header_of};
use ipfix_wire::Header;
use recording_files::{MessageCount, Recorder};
use std::alloc::Global;

// Takes a message, whose header was read, and appends what precedes it in its file, and the message. It answers
// what the message adds to the counts.
fn take_and_append(
    alloc: Global,
    recorder: &mut Recorder,
    header: &Header,
    message: &[u8],
    out: &mut Vec<u8>,
) -> Result<MessageCount, MessageFault>
    requires { message_header message.now ≡ Ok header.now }
    ensures took { ForKeeps recorder.old (λ before here.
        IfOk result (Took before here recorder.new message.now out.old.items out.new.items)) }
    ensures fails { IfErr result
        (λ fault. ForKeeps recorder.old (FailsOn fault message.now None)) }
{
    let mut lead = Vec::new(alloc);
    let count = recorder.take_message(alloc, header, message, &mut lead)?;
    out.extend_from_slice(&lead)?;
    out.extend_from_slice(message)?;
    Ok(count)
}

// Takes a message that withdraws templates, and appends what precedes it and the message.
fn take_one(
    alloc: Global,
    recorder: &mut Recorder,
    header: &Header,
    templates: &[WithdrawnTemplate],
    out: &mut Vec<u8>,
) -> Result<(), MessageFault>
    requires few { length templates.now ≤ MOST_WITHDRAWN }
    requires ids { All HasTemplateId templates.now }
    ensures { ForKeeps recorder.old (λ before here.
        HasAppeared before here header.now.domain → OkIfMemory result
        (TookOne before here recorder.new header.now templates.now out.old.items out.new.items)) }
{
    let mut message = Vec::new(alloc);
    append_withdrawals(header, templates, &mut message)?;
    let own = header_of(&message)?;
    let _ = take_and_append(alloc, recorder, &own, &message, out)?;
    Ok(())
}

// Takes the messages that withdraw templates in the domain of a header, which has appeared if there are any.
// What stood in `out` before is gone.
fn take_withdrawals(
    alloc: Global,
    recorder: &mut Recorder,
    header: &Header,
    withdrawn: &[WithdrawnTemplate],
    out: &mut Vec<u8>,
) -> Result<(), MessageFault>
    requires { All HasTemplateId withdrawn.now }
    ensures { ForKeeps recorder.old (λ before here.
        CanWithdraw before here header.now.domain withdrawn.now → OkIfMemory result
        (TookWithdrawals before here recorder.new header.now withdrawn.now out.new.items)) }
{
    out.clear();
    let mut rest = withdrawn;
    while !rest.is_empty() {
        let (part, others) = rest.split_at(MOST_WITHDRAWN.min(rest.len()));
        take_one(alloc, recorder, header, part, out)?;
        rest = others;
    }
    Ok(())
}

// Takes a message that defines a template, and appends what precedes it and the message.
fn take_definition(
    alloc: Global,
    recorder: &mut Recorder,
    stamp: Stamp,
    template: &Template,
    out: &mut Vec<u8>,
) -> Result<(), MessageFault>
    requires { IsTemplate template.now }
    ensures { ForKeeps recorder.old (λ before here.
        CanDefineNext before here stamp.domain template.now → OkIfMemory result
        (TookDefinition before here recorder.new stamp template.now out.old.items out.new.items)) }
{
    let mut body = Vec::new(alloc);
    let mut message = Vec::new(alloc);
    append_template_message(stamp, template, &mut body, &mut message)?;
    let own = header_of(&message)?;
    let _ = take_and_append(alloc, recorder, &own, &message, out)?;
    Ok(())
}

// Takes the messages that define templates, after those that withdraw templates.
fn take_definitions(
    alloc: Global,
    recorder: &mut Recorder,
    header: &Header,
    defined: &Templates,
    out: &mut Vec<u8>,
) -> Result<(), MessageFault>
    ensures { (before here : List Message) (p : Preparation)
        → TakesDefinitions before here recorder.old header.now p (values defined.now)
        out.old.items → OkIfMemory result
        (TookPrepared before here recorder.new header.now p out.new.items) }
{
    let stamp = Stamp {
        export_time: header.export_time,
        sequence: header.sequence,
        domain: header.domain,
    };
    for known in defined.values() {
        take_definition(alloc, recorder, stamp, known.to_write(), out)?;
    }
    Ok(())
}

/// Takes a datagram, whose header was read, after messages that withdraw templates and define templates, and makes
/// all that is to be written for it. Where no sequence number is known those messages have the one that was due when an
/// earlier run ended, or else the datagram's. What stood in `out` before is gone. It answers what the datagram
/// adds to the counts.
///
/// The fault is `OutOfMemory`, and after it the recorder is of no use.
pub fn take_datagram(
    alloc: Global,
    recorder: &mut Recorder,
    header: &Header,
    due_left: Option<u32>,
    reading: &DatagramReading,
    datagram: &[u8],
    out: &mut Vec<u8>,
) -> Result<MessageCount, MessageFault>
    requires header { message_header datagram.now ≡ Ok header.now }
    requires ids { All HasTemplateId reading.now.withdrawn.items }
    ensures { TakesDatagram recorder.old recorder.new datagram.now due_left reading.now result out.new }
{
    let due = recorder.due(header.domain).or(due_left);
    let own = Header {
        length: header.length,
        export_time: header.export_time,
        sequence: due.unwrap_or(header.sequence),
        domain: header.domain,
    };
    take_withdrawals(alloc, recorder, &own, &reading.withdrawn, out)?;
    take_definitions(alloc, recorder, &own, &reading.defined, out)?;
    take_and_append(alloc, recorder, header, datagram, out)
}
