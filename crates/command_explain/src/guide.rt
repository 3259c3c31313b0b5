//! The explanation of each fault.

ghost use Rattle.std.specs.Prelude.{◌≡◌};
ghost use Rattle.command_explain.specs.Guide.{texts_of, texts_of_message, texts_of_session};

use crate::ending_fault::EndingFault;
use ipfix_message::MessageFault;
use ipfix_session::SessionFault;

/// The explanation of a fault.
#[derive(Clone, Copy, Debug)]
pub struct Explanation {
    /// What was found, without a capital letter and a full stop.
    pub found: &'static str,
    /// The sections of RFC 7011 by which it is a fault, or that there are none.
    pub rule: &'static str,
    /// What an operator does about it, in sentences. A line has less than 90 octets.
    pub advice: &'static str,
}

impl Explanation {
    /// The explanation of this fault.
    pub fn of(fault: EndingFault) -> Self
        ensures found { result.found.now ≡ (texts_of fault).found }
        ensures rule { result.rule.now ≡ (texts_of fault).rule }
        ensures advice { result.advice.now ≡ (texts_of fault).advice }
    {
        match fault {
            EndingFault::Session(fault) => explanation_of_session(fault),
            EndingFault::NotWritten => Explanation {
                found: "a file of the recorded session could not be written, or not be finished",
                rule: "none of RFC 7011",
                advice: "Look for a full disk, or for a folder without permission. The messages that were written\n\
                    are whole in the session's files. Let the exporter connect again.",
            },
        }
    }
}

fn explanation_of_session(fault: SessionFault) -> Explanation
    ensures found { result.found.now ≡ (texts_of_session fault).found }
    ensures rule { result.rule.now ≡ (texts_of_session fault).rule }
    ensures advice { result.advice.now ≡ (texts_of_session fault).advice }
{
    match fault {
        SessionFault::Message(fault) => explanation_of_message(fault),
        SessionFault::Truncated => Explanation {
            found: "the input ended inside a message",
            rule: "RFC 7011, section 3.1",
            advice: "The file was cut, or the exporter was stopped while it sent. A tunnel that is killed\n\
                    ends a session in the same way (seen with stunnel). Copy the file again, or find out\n\
                    why the exporter stopped.",
        },
        SessionFault::ReadFailed => Explanation {
            found: "the input could not be read on, or was silent for too long",
            rule: "none of RFC 7011",
            advice: "The connection was reset, sent nothing for as long as --idle says, or had brought record\n\
                    no whole message after 60 seconds; or the file's disk fails. Look at the logs of the\n\
                    system and of the exporter, and let it connect again.",
        },
        SessionFault::TooManyReads => Explanation {
            found: "the input had not ended after 2^40 reads",
            rule: "none of RFC 7011",
            advice: "End the session earlier, and begin another one.",
        },
        SessionFault::SinkClosed => Explanation {
            found: "the sink takes no more records",
            rule: "none of RFC 7011",
            advice: "What the records went to has ended. Look for the fault that it reports.",
        },
    }
}

/// The explanation of a message's fault.
pub fn explanation_of_message(fault: MessageFault) -> Explanation
    ensures found { result.found.now ≡ (texts_of_message fault).found }
    ensures rule { result.rule.now ≡ (texts_of_message fault).rule }
    ensures advice { result.advice.now ≡ (texts_of_message fault).advice }
{
    match fault {
        MessageFault::Version => Explanation {
            found: "the version is not 10",
            rule: "RFC 7011, section 3.1",
            advice: "What was sent is not IPFIX. Let the exporter send version 10, not NetFlow 5 or 9\n\
                (softflowd: -v 10), and check that nothing else writes to the port or the file. If a file\n\
                holds several sessions, cut it where each begins (docs/RECIPES.md, Several sessions).",
        },
        MessageFault::MessageLength => Explanation {
            found: "the length field is below 16, or is not the length of the message",
            rule: "RFC 7011, section 3.1",
            advice: "The exporter is faulty, or octets were lost or added on the way. A file has to be\n\
                copied as it is, and to begin where a message begins.",
        },
        MessageFault::SetHeader => Explanation {
            found: "1 to 3 octets where a set should begin",
            rule: "RFC 7011, section 3.3",
            advice: "The lengths that the exporter writes contradict each other. Report it to the vendor.",
        },
        MessageFault::SetLength => Explanation {
            found: "a set's length is below 4, or past the end of the message",
            rule: "RFC 7011, section 3.3",
            advice: "The lengths that the exporter writes contradict each other. Report it to the vendor.\n\
                If a file holds several sessions and one of them was cut, separate them where each\n\
                begins (docs/RECIPES.md, Several sessions).",
        },
        MessageFault::TemplateId => Explanation {
            found: "a template id below 256 that is no withdrawal of all",
            rule: "RFC 7011, sections 3.4.1 and 8.1",
            advice: "The exporter gives a template an id that is reserved for sets. Report it to the vendor.",
        },
        MessageFault::TemplateCut => Explanation {
            found: "a template record goes past its set",
            rule: "RFC 7011, sections 3.4.1 and 3.4.2",
            advice: "The field count that the exporter writes does not match the fields after it, or the\n\
                length of the set is wrong. Report it to the vendor.",
        },
        MessageFault::Scope => Explanation {
            found: "a scope field count of 0, or above the field count",
            rule: "RFC 7011, section 3.4.2",
            advice: "The options template does not say what its options are about. Report it to the vendor,\n\
                and turn the exporter's options off until it is fixed, if you can.",
        },
        MessageFault::ZeroLength => Explanation {
            found: "a template whose records would have no octets",
            rule: "none of RFC 7011",
            advice: "Every field of the template has width 0, so its records could not be counted. Report\n\
                it to the vendor.",
        },
        MessageFault::TemplateChanged => Explanation {
            found: "another template is in force under that id",
            rule: "RFC 7011, section 8.1",
            advice: "The exporter gave an id to another template without a withdrawal. Give each exporter,\n\
                and each start of one, a session of its own; cut a file that holds several sessions where\n\
                each begins (docs/RECIPES.md, Several sessions). Otherwise report it to the vendor.",
        },
        MessageFault::RecordCut => Explanation {
            found: "a data record goes past its set",
            rule: "RFC 7011, section 3.4.3",
            advice: "The records do not match their template. Give each exporter, and each start of one, a\n\
                session of its own; cut a file that holds several sessions where each begins\n\
                (docs/RECIPES.md, Several sessions). Otherwise report it to the vendor.",
        },
        MessageFault::TooManyDomains => Explanation {
            found: "one domain more than 1,024",
            rule: "none of RFC 7011",
            advice: "The session has more observation domains than this program accepts. Let the exporter\n\
                use fewer domains, or more sessions.",
        },
        MessageFault::OutOfMemory => Explanation {
            found: "memory was refused; may come in place of any other answer",
            rule: "none of RFC 7011",
            advice: "Give the program more memory, or fewer sessions at once, or shorter rings (--ring); or\n\
                make the table smaller: longer intervals, fewer keys, a smaller max_spread.",
        },
        MessageFault::Spent => Explanation {
            found: "an earlier message of the session had a fault",
            rule: "none of RFC 7011",
            advice: "Look for the fault of that message: it came first.",
        },
        MessageFault::TooManyFields => Explanation {
            found: "more templates are defined than --templates allows",
            rule: "none of RFC 7011",
            advice: "A template counts 8 and its fields, a domain 16. If the exporter needs so many, give a\n\
                larger --templates. A session ends so; of a UDP peer the datagram alone is refused, and\n\
                the ids that it would have changed have no template until they are defined again.",
        },
    }
}
