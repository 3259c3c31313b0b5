//! A message: its header, its domain and its sets (RFC 7011, section 3.1).

ghost use Rattle.std.specs.Prelude.{◌≡◌, ◌≤◌, ◌+◌, nat_eq, length, drop, Ok, IsOk, IsErrOf, OnOk, IsSome};
ghost use Rattle.indexmap.specs.IndexMap.{get};
ghost use Rattle.ipfix_message.specs.Domains;
ghost use Rattle.ipfix_message.specs.Domains.{History, StandsFor, AdmitsMessage, ReadsMessage, passed_over_of};
ghost use Rattle.ipfix_message.specs.Held.{Admits};
ghost use Rattle.ipfix_message.specs.Outcome.{Gives};
ghost use Rattle.ipfix_message.specs.declared.fault.MessageFault.TheVariants.{OutOfMemory};
ghost use Rattle.ipfix_message.specs.Kept.{kept};
ghost use Rattle.ipfix_message.specs.declared.template_record.TheConstants.{LONGEST_BODY};
ghost use Rattle.ipfix_wire.specs.declared.set.TheConstants.{SET_HEADER_LENGTH};

use crate::fault::MessageFault;
use crate::in_force::Templates;
use crate::passed_over::PassedOver;
use crate::record::DataRecord;
use crate::sets::take_sets;
use indexmap::IndexMap;
use ipfix_wire::{HEADER_LENGTH, Header, read_header};
use std::alloc::Global;
use std::collections::BTreeMap;

/// How many domains a session may have.
pub const MAX_DOMAINS: usize = 1024;

/// The header of a message, whose length is that of the message.
#[tactic(auto, unfolding(crate::specs::Domains::message_header))]
pub fn header_of(message: &[u8]) -> Result<Header, MessageFault>
    ensures gives { Gives (λ h. h) result (Domains.message_header message.now) }
    ensures memory { ¬ IsErrOf result OutOfMemory }
{
    if message.len() < HEADER_LENGTH {
        return Err(MessageFault::MessageLength);
    }
    let header = read_header(message)?;
    if usize::from(header.length) != message.len() {
        return Err(MessageFault::MessageLength);
    }
    Ok(header)
}

// Makes room for a domain that has not appeared yet.
fn admit(
    alloc: Global,
    known: &mut IndexMap<u32, Templates>,
    domain: u32,
) -> Result<(), MessageFault>
    ensures gives { (ds : History) → StandsFor (kept known.old.entries) ds
        → Admits result (kept known.new.entries) (Domains.admit ds domain) }
    ensures memory { IsErrOf result OutOfMemory → (ds : History)
        → StandsFor (kept known.old.entries) ds → IsOk (Domains.admit ds domain) }
    ensures present { OnOk result (IsSome (get nat_eq known.new domain)) }
{
    if known.contains_key(&domain) {
        return Ok(());
    }
    if known.len() >= MAX_DOMAINS {
        return Err(MessageFault::TooManyDomains);
    }
    let _ = known.insert(domain, BTreeMap::new(alloc))?;
    Ok(())
}

/// What a message gave.
#[derive(Debug, Drop)]
pub struct Decoded {
    /// Its header (RFC 7011, section 3.1).
    pub header: Header,
    /// The records of its data sets, in order (RFC 7011, section 3.4.3). They may outlive the message
    /// and the session: each keeps the body of its set and its template.
    pub records: Vec<DataRecord>,
    /// How many sets had an id of 0, 1 or 4 to 255 (RFC 7011, section 3.3.2).
    pub skipped_sets: u64,
    /// How many data sets had no template in force (RFC 7011, section 9).
    pub unknown_sets: u64,
    /// How many withdrawals named a template that was not in force (RFC 7011, section 8.1).
    pub ignored_withdrawals: u64,
}

impl Decoded {
    /// The three counts of what was passed over.
    pub fn passed_over(&self) -> PassedOver
        ensures { result ≡ passed_over_of self.now }
    {
        PassedOver {
            skipped_sets: self.skipped_sets,
            unknown_sets: self.unknown_sets,
            ignored_withdrawals: self.ignored_withdrawals,
        }
    }
}

/// The octets after a message's header, which gives the message's length in 16 bits.
#[tactic(auto, using(crate::proofs::History::header_is_whole, crate::proofs::History::header_has_length))]
pub fn after_header<'a>(header: &Header, message: &'a [u8]) -> &'a [u8]
    requires { Domains.message_header message.now ≡ Ok header.now }
    ensures octets { result.now ≡ drop HEADER_LENGTH message.now }
    ensures room { length result.now ≤ SET_HEADER_LENGTH + LONGEST_BODY }
{
    let length = usize::from(header.length);
    &message[HEADER_LENGTH..length]
}

/// Reads a message that has this header, in a session that has these domains.
#[tactic(auto, using(crate::proofs::History::header_is_whole))]
pub fn read_message(
    alloc: Global,
    known: &mut IndexMap<u32, Templates>,
    header: &Header,
    message: &[u8],
) -> Result<Decoded, MessageFault>
    requires { Domains.message_header message.now ≡ Ok header.now }
    ensures gives { ReadsMessage
        (kept known.old.entries) (kept known.new.entries) message.now result }
    ensures memory { IsErrOf result OutOfMemory
        → AdmitsMessage (kept known.old.entries) message.now }
{
    admit(alloc, known, header.domain)?;
    let mut decoded = Decoded {
        header: *header,
        records: Vec::new(alloc),
        skipped_sets: 0,
        unknown_sets: 0,
        ignored_withdrawals: 0,
    };
    let templates = known.get_mut(&header.domain).unwrap();
    take_sets(
        alloc,
        after_header(header, message),
        templates,
        &mut decoded,
    )?;
    Ok(decoded)
}
