//! Whether a datagram is taken.

ghost use Rattle.std.specs.Prelude.{◌≡◌, ◌≢◌, ◌≤◌, ◌+◌, ℕ, List, length, drop, All, Ok, None, Some, IfOk, MatchBool, MatchResult, false};
ghost use Rattle.std.specs.BTreeMap.{IsOrdered};
ghost use Rattle.std.specs.Ordering.{nat_cmp};
ghost use Rattle.ipfix_wire.specs.declared.set.TheConstants.{SET_HEADER_LENGTH};
ghost use Rattle.ipfix_message.specs.Domains.{History, Message, message_header};
ghost use Rattle.ipfix_message.specs.declared.fault.MessageFault.TheVariants.{TemplateChanged};
ghost use Rattle.ipfix_message.specs.declared.template_record.TheConstants.{LONGEST_BODY};
ghost use Rattle.ipfix_datagrams.specs.Attempts.{Defines, FirstReads, HasFirst, IsPlain, OrOutOfMemory};
ghost use Rattle.ipfix_datagrams.specs.Datagrams as specs;
ghost use Rattle.ipfix_datagrams.specs.Datagrams.{AreDefinedBefore, Basis, HasTemplateIds, IfOf, defines_template, IsReadingOf, IsRefused, KeepsKnown, Represents, basis_of, events_of_message, withdraws_only};
ghost use Rattle.ipfix_datagrams.specs.Entries.{Holds};
ghost use Rattle.ipfix_datagrams.specs.Readings.{AreSetsOf, IsRefusedAnyway, ReadSo};
ghost use Rattle.ipfix_datagrams.specs.Withdrawals.{HasTemplateId};

use crate::again::defined_again;
use crate::attempt::attempt;
use crate::changes::{changed, dropped, with_changes};
use crate::data_sets::set_ids;
use crate::definitions::{Definitions, definitions_of};
use crate::known_templates::KnownTemplates;
use crate::resuming::resume;
use crate::weighing::{Weights, weights_after};
use crate::withdrawn_template::WithdrawnTemplate;
use ipfix_message::{Domains, MessageFault, Templates};
use ipfix_wire::{HEADER_LENGTH, Header};
use std::alloc::{AllocError, Global};
use std::collections::BTreeMap;

/// What is to be done with a datagram.
#[derive(Drop)]
pub enum Reading {
    /// It has withdrawals alone, which are ignored over UDP (RFC 7011, section 8.4), and so it is not kept.
    /// These are so many, up to `u64::MAX`.
    Ignored(u64),
    /// What would be known then counts more than the budget, and so it is refused. For these ids it would change what is known.
    TooMuch(Vec<u16>),
    /// It is to be taken so.
    Kept(DatagramReading),
}

/// How a datagram is to be taken.
#[derive(Drop)]
pub struct DatagramReading {
    /// The templates that are to be withdrawn before it, in the order of their ids: those in force for which
    /// its first definition is another.
    pub withdrawn: Vec<WithdrawnTemplate>,
    /// Those that are to be defined then, by id: again, since withdrawals ended them in the files, and the datagram
    /// has data sets of them, and does not first define them otherwise; or since they are resumed.
    pub defined: Templates,
    /// What it defines last for each id.
    pub definitions: Templates,
    /// How many withdrawals it has, up to `u64::MAX`. They are ignored.
    pub withdrawals: u64,
    /// Its domain alone, after it. `None` if all domains stay as they are.
    pub after: Option<Domains>,
    /// What each domain counts then. `None` if that stays as it is.
    pub weights: Option<Weights>,
}

impl DatagramReading {
    /// Whether the datagram defines a template.
    pub fn defines(&self) -> bool
        ensures { (basis : Basis) (ds : History) (m : List ℕ) (x : Message)
            → IsReadingOf basis ds m self.now x → result ≡ defines_template m }
    {
        !self.definitions.is_empty()
    }
}

// A datagram that was read after templates were withdrawn, and none defined: those templates, and its domain
// alone after it; `None` if all domains stay as they are.
#[derive(Drop)]
struct FirstReading {
    withdrawn: Vec<WithdrawnTemplate>,
    after: Option<Domains>,
}

// Whether a datagram was refused since it changes a template.
fn is_change(fault: &MessageFault) -> bool
    ensures { MatchBool result (fault.now ≡ TemplateChanged) (fault.now ≢ TemplateChanged) }
{
    match fault {
        MessageFault::TemplateChanged => true,
        _ => false,
    }
}

// Whether none of these templates is to be withdrawn, and a datagram changes none.
fn is_plain_data(
    domains: &Domains,
    header: &Header,
    dropped: &[WithdrawnTemplate],
    datagram: &[u8],
) -> Result<bool, MessageFault>
    requires { message_header datagram.now ≡ Ok header.now }
    ensures { (ds : History) → Represents domains.now ds
        → IsPlain result dropped.now ds datagram.now }
{
    if !dropped.is_empty() {
        return Ok(false);
    }
    domains.check_data(header, datagram)
}

// Reads a datagram after the templates are withdrawn that are in force for ids that have none, and those that its first
// definitions replace, and no others defined. Only for one with a template set, or where some are withdrawn, is its
// domain copied.
fn read_first(
    alloc: Global,
    domains: &Domains,
    header: &Header,
    barred: &[u16],
    first: &Templates,
    datagram: &[u8],
) -> Result<FirstReading, MessageFault>
    requires header { message_header datagram.now ≡ Ok header.now }
    requires kept { withdraws_only datagram.now ≡ false }
    requires first { HasFirst first.now datagram.now }
    ensures ids { IfOk result (λ r. All HasTemplateId r.withdrawn.items) }
    ensures reads { (ds : History) → Represents domains.now ds → MatchResult result
        (λ r. FirstReads barred.now ds header.now.domain datagram.now r.withdrawn.items r.after)
        (IsRefusedAnyway barred.now ds datagram.now) }
{
    let in_force = domains.templates(header.domain);
    let ended = dropped(alloc, barred, first, in_force)?;
    let is_data = is_plain_data(domains, header, &ended, datagram)?;
    if is_data {
        return Ok(FirstReading {
            withdrawn: ended,
            after: None,
        });
    }
    if !domains.has_room(header.domain) {
        return Err(MessageFault::TooManyDomains);
    }
    let none = BTreeMap::new(alloc);
    match attempt(alloc, domains, header, &ended, &none, datagram) {
        Ok(after) => {
            return Ok(FirstReading {
                withdrawn: ended,
                after: Some(after),
            });
        }
        Err(fault) => {
            if !is_change(&fault) {
                return Err(fault);
            }
        }
    }
    let withdrawn = with_changes(alloc, ended, first, in_force)?;
    match attempt(alloc, domains, header, &withdrawn, &none, datagram) {
        Ok(after) => Ok(FirstReading {
            withdrawn,
            after: Some(after),
        }),
        Err(fault) => Err(fault),
    }
}

/// What follows a datagram's header, which gives its length in 16 bits.
#[tactic(auto, using(ipfix_message::proofs::History::header_is_whole, ipfix_message::proofs::History::header_has_length))]
pub(crate) fn after_header<'a>(header: &Header, datagram: &'a [u8]) -> &'a [u8]
    requires { message_header datagram.now ≡ Ok header.now }
    ensures octets { result.now ≡ drop HEADER_LENGTH datagram.now }
    ensures room { length result.now ≤ SET_HEADER_LENGTH + LONGEST_BODY }
{
    let length = usize::from(header.length);
    &datagram[HEADER_LENGTH..length]
}

// Those that are defined again before a datagram with these sets and these first definitions: of the templates
// that were withdrawn in its domain. The fault is `OutOfMemory`.
fn again(
    alloc: Global,
    known: &KnownTemplates,
    barred: &[u16],
    first: &Templates,
    domain: u32,
    sets: &[u8],
) -> Result<Templates, MessageFault>
    ensures ordered { IfOk result (IsOrdered nat_cmp) }
    ensures again { (ds : History) (m : List ℕ) → KeepsKnown known.now ds
        → AreSetsOf sets.now first.now m → OrOutOfMemory result
        (λ defined. Holds defined (specs.again barred.now ds m domain)) }
{
    let Some(templates) = known.withdrawn.get(&domain) else {
        return Ok(BTreeMap::new(alloc));
    };
    let ids = set_ids(alloc, sets)?;
    let defined = defined_again(alloc, templates, barred, first, &ids)?;
    Ok(defined)
}

// Those that are defined before such a datagram: again, or since they are resumed. The fault is `OutOfMemory`.
fn defined_before(
    alloc: Global,
    domains: &Domains,
    known: &KnownTemplates,
    resumed: &Templates,
    barred: &[u16],
    first: &Templates,
    domain: u32,
    sets: &[u8],
) -> Result<Templates, MessageFault>
    ensures ordered { IfOk result (IsOrdered nat_cmp) }
    ensures before { (ds : History) (m : List ℕ) → IfOf domains.now known.now ds
        (AreSetsOf sets.now first.now m → OrOutOfMemory result
        (AreDefinedBefore (basis_of resumed.now barred.now) ds m domain)) }
{
    let mut defined = again(alloc, known, barred, first, domain, sets)?;
    let in_force = domains.templates(domain);
    resume(
        resumed,
        in_force,
        known.withdrawn.get(&domain),
        first,
        &mut defined,
    )?;
    Ok(defined)
}

// Reads a datagram that is kept, with what its template records are.
fn read_kept(
    alloc: Global,
    domains: &Domains,
    known: &KnownTemplates,
    resumed: &Templates,
    barred: &[u16],
    header: &Header,
    definitions: Definitions,
    datagram: &[u8],
) -> Result<DatagramReading, MessageFault>
    requires header { message_header datagram.now ≡ Ok header.now }
    requires kept { withdraws_only datagram.now ≡ false }
    requires defines { Defines definitions (events_of_message datagram.now) }
    ensures ids { IfOk result (λ r. All HasTemplateId r.withdrawn.items) }
    ensures reads { let basis = basis_of resumed.now barred.now in
        (ds : History) → IfOf domains.now known.now ds (MatchResult result
        (λ r. (x : Message) × IsReadingOf basis ds datagram.now r x)
        (IsRefused basis ds datagram.now)) }
    ensures weights { IfOk result (λ r. r.weights ≡ None) }
{
    let sets = after_header(header, datagram);
    let Definitions {
        first,
        last,
        withdrawals,
        withdraws_only: _,
    } = definitions;
    let domain = header.domain;
    let reading = read_first(alloc, domains, header, barred, &first, datagram)?;
    let defined = defined_before(alloc, domains, known, resumed, barred, &first, domain, sets)?;
    let FirstReading { withdrawn, after } = reading;
    if defined.is_empty() {
        return Ok(DatagramReading {
            withdrawn,
            defined,
            definitions: last,
            withdrawals,
            after,
            weights: None,
        });
    }
    let after = attempt(alloc, domains, header, &withdrawn, &defined, datagram)?;
    Ok(DatagramReading {
        withdrawn,
        defined,
        definitions: last,
        withdrawals,
        after: Some(after),
        weights: None,
    })
}

// With what each domain counts then.
fn with_weights(reading: DatagramReading, weights: Weights) -> DatagramReading
    ensures { result ≡ record reading { weights = Some weights } }
{
    let mut reading = reading;
    reading.weights = Some(weights);
    reading
}

// The answer to a datagram that is read so, by what would be known after it.
fn within_budget(
    alloc: Global,
    domains: &Domains,
    known: &KnownTemplates,
    domain: u32,
    reading: DatagramReading,
) -> Result<Reading, AllocError>
    requires ids { All HasTemplateId reading.withdrawn.items }
    requires weights { reading.weights ≡ None }
    ensures ids { IfOk result HasTemplateIds }
    ensures answers { (s : ReadSo domains.now domain reading) → KeepsKnown known.now s.history
        → IfOk result (specs.Answers s.basis known.now.budget s.history s.datagram) }
{
    if reading.after.is_none() {
        return Ok(Reading::Kept(reading));
    }
    let after = weights_after(alloc, known, domains, domain, &reading)?;
    match after {
        Some(weights) => Ok(Reading::Kept(with_weights(reading, weights))),
        None => {
            let changed = changed(
                alloc,
                &reading.definitions,
                domains.templates(domain),
                known.withdrawn.get(&domain),
            )?;
            Ok(Reading::TooMuch(changed))
        }
    }
}

/// Reads a datagram after the domains of its peer and what else is kept of the peer's templates, which stay as they are. It answers
/// whether the datagram is ignored, whether its definitions are too many for the budget, and how it is to be taken if not. With it the
/// `resumed` templates of an earlier run are known in its domain: they are defined before it, each unless the peer's files define its
/// id, or the datagram first defines it otherwise. The `barred` ids have no template before it.
///
/// The fault is the first of these: `TooManyDomains`, and the faults of its sets in the order of its octets.
/// `TemplateChanged` comes only where a datagram, without a withdrawal between, defines an id otherwise than it
/// did itself before. `OutOfMemory` may come in place of any other answer.
pub fn read_datagram(
    alloc: Global,
    domains: &Domains,
    known: &KnownTemplates,
    resumed: &Templates,
    barred: &[u16],
    header: &Header,
    datagram: &[u8],
) -> Result<Reading, MessageFault>
    requires { message_header datagram.now ≡ Ok header.now }
    ensures ids { IfOk result HasTemplateIds }
    ensures reads { let basis = basis_of resumed.now barred.now in
        (ds : History) → IfOf domains.now known.now ds (MatchResult result
        (specs.Answers basis known.now.budget ds datagram.now)
        (IsRefused basis ds datagram.now)) }
{
    let definitions = definitions_of(alloc, after_header(header, datagram))?;
    if definitions.withdraws_only && 0 < definitions.withdrawals {
        return Ok(Reading::Ignored(definitions.withdrawals));
    }
    let reading = read_kept(
        alloc,
        domains,
        known,
        resumed,
        barred,
        header,
        definitions,
        datagram,
    )?;
    let answer = within_budget(alloc, domains, known, header.domain, reading)?;
    Ok(answer)
}
