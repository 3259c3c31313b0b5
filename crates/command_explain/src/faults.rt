//! The faults that are explained.

use crate::ending_fault::EndingFault;
use ipfix_message::MessageFault;
use ipfix_session::SessionFault;

/// Each fault that ends a session, or for which a datagram is refused, in the order of their numbers.
pub const FAULTS: [EndingFault; 19] = [
    EndingFault::Session(SessionFault::Message(MessageFault::Version)),
    EndingFault::Session(SessionFault::Message(MessageFault::MessageLength)),
    EndingFault::Session(SessionFault::Message(MessageFault::SetHeader)),
    EndingFault::Session(SessionFault::Message(MessageFault::SetLength)),
    EndingFault::Session(SessionFault::Message(MessageFault::TemplateId)),
    EndingFault::Session(SessionFault::Message(MessageFault::TemplateCut)),
    EndingFault::Session(SessionFault::Message(MessageFault::Scope)),
    EndingFault::Session(SessionFault::Message(MessageFault::ZeroLength)),
    EndingFault::Session(SessionFault::Message(MessageFault::TemplateChanged)),
    EndingFault::Session(SessionFault::Message(MessageFault::RecordCut)),
    EndingFault::Session(SessionFault::Message(MessageFault::TooManyDomains)),
    EndingFault::Session(SessionFault::Message(MessageFault::OutOfMemory)),
    EndingFault::Session(SessionFault::Message(MessageFault::Spent)),
    EndingFault::Session(SessionFault::Truncated),
    EndingFault::Session(SessionFault::ReadFailed),
    EndingFault::Session(SessionFault::TooManyReads),
    EndingFault::Session(SessionFault::SinkClosed),
    EndingFault::NotWritten,
    EndingFault::Session(SessionFault::Message(MessageFault::TooManyFields)),
];
