//! The domains of a transport session, which decode its messages (RFC 7011, sections 3.1 and 8).

ghost use Rattle.std.specs.Prelude.{[], ◌≡◌, ◌≤◌, false, true, IsTrue, ℕ, IsErrOf, IsOk, IfOk, OnOk, OnErr, Ok, Err, MatchBool, None, nat_eq, option_copied, option_map, option_and_then};
ghost use Rattle.std.specs.Map.{lookup};
ghost use Rattle.std.specs.Ordering.{nat_cmp};
ghost use Rattle.std.specs.BTreeMap.{get};
ghost use Rattle.ipfix_message.specs.Domains.{History, Message, StandsFor, AdmitsMessage, Decodes, DecodesMessage, IfUnspent, IsChecked, admit, message_header, message_gives, template_for, alone};
ghost use Rattle.ipfix_message.specs.TemplateLimits.{IsWithin, TellsWithin, fields_in, message_within};
ghost use Rattle.ipfix_message.specs.declared.fault.MessageFault.TheVariants.{OutOfMemory, Spent, TooManyDomains};

use crate::data_check::{check_sets, has_template_set};
use crate::fault::MessageFault;
use crate::in_force::Templates;
use crate::message::{Decoded, MAX_DOMAINS, after_header, header_of, read_message};
use crate::record::Template;
use crate::template_limit::are_within;
use indexmap::IndexMap;
use ipfix_wire::Header;
use std::alloc::{AllocError, Global};
use std::marker::Model;

/// The observation domains of a transport session, in order of first appearance, with the templates
/// that are in force in each (RFC 7011, sections 3.1 and 8). There are at most 1,024.
#[derive(Drop)]
pub struct Domains {
    known: IndexMap<u32, Templates>,
    spent: bool,
}

impl Model for Domains {
    ghost use Rattle.ipfix_message.specs.Domains.{DomainsView};
    ghost use Rattle.ipfix_message.specs.Kept.{kept};

    ghost Value = { DomainsView };

    ghost view = { λ d. record { spent = d.spent; domains = kept d.known.entries } };
}

impl Domains {
    /// No domains, at the start of a session.
    pub fn new(alloc: Global) -> Self
        ensures fresh { result.spent ≡ false }
        ensures empty { StandsFor result.domains [] }
    {
        Domains {
            known: IndexMap::new(alloc),
            spent: false,
        }
    }

    /// Decodes a message: the records of its data sets under the templates in force, and what was
    /// passed over. Template records take effect in the order in which they stand, for the sets
    /// after them and for later messages of the domain.
    ///
    /// The fault is the first of these: `Spent`; `MessageLength` for fewer than 16 octets; `Version`;
    /// `MessageLength` for another length than that of the slice; `TooManyDomains`; then set by set
    /// `SetHeader`, `SetLength` and the faults inside the set in the order of its octets. From the
    /// first set on, `OutOfMemory` may come in place of any other answer, and before that only if
    /// the new domain itself finds no memory. After a fault each further call answers `Spent`.
    pub fn decode(&mut self, alloc: Global, message: &[u8]) -> Result<Decoded, MessageFault>
        ensures spent { IsTrue self.old.spent → result ≡ Err Spent }
        ensures gives { self.old.spent ≡ false
            → DecodesMessage self.old self.new message.now result }
        ensures memory { IsErrOf result OutOfMemory
            → AdmitsMessage self.old.domains message.now }
        ensures ok { OnOk result (self.new.spent ≡ false) }
        ensures err { OnErr result (self.new.spent ≡ true) }
    {
        if self.spent {
            return Err(MessageFault::Spent);
        }
        match header_of(message) {
            Ok(header) => self.decode_with_header(alloc, &header, message),
            Err(fault) => {
                self.spent = true;
                Err(fault)
            }
        }
    }

    /// Decodes a message whose header was read already, as [`decode`](Self::decode) does.
    pub fn decode_with_header(
        &mut self,
        alloc: Global,
        header: &Header,
        message: &[u8],
    ) -> Result<Decoded, MessageFault>
        requires { message_header message.now ≡ Ok header.now }
        ensures spent { IsTrue self.old.spent → result ≡ Err Spent }
        ensures gives { self.old.spent ≡ false
            → DecodesMessage self.old self.new message.now result }
        ensures memory { IsErrOf result OutOfMemory
            → AdmitsMessage self.old.domains message.now }
        ensures ok { OnOk result (self.new.spent ≡ false) }
        ensures err { OnErr result (self.new.spent ≡ true) }
    {
        if self.spent {
            return Err(MessageFault::Spent);
        }
        let result = read_message(alloc, &mut self.known, header, message);
        self.spent = result.is_err();
        result
    }

    /// Decodes a message, as [`decode_with_header`](Self::decode_with_header) does, in a session whose templates
    /// may count no more than this, if it has a limit ([`count_of`](crate::count_of); a domain counts
    /// [`DOMAIN_FIELDS`](crate::DOMAIN_FIELDS) more). `TooManyFields` comes after all other faults of the message:
    /// after it more would be in force.
    pub fn decode_within(
        &mut self,
        alloc: Global,
        header: &Header,
        message: &[u8],
        limit: Option<u64>,
    ) -> Result<Decoded, MessageFault>
        requires { message_header message.now ≡ Ok header.now }
        ensures spent { IsTrue self.old.spent → result ≡ Err Spent }
        ensures gives { IfUnspent self.old (λ ds. IsWithin limit ds
            → Decodes result self.new.domains (message_within limit ds message.now)) }
        ensures memory { IsErrOf result OutOfMemory
            → AdmitsMessage self.old.domains message.now }
        ensures ok { OnOk result (self.new.spent ≡ false) }
        ensures err { OnErr result (self.new.spent ≡ true) }
    {
        let Some(limit) = limit else {
            return self.decode_with_header(alloc, header, message);
        };
        let may_add = self.may_add(header, message);
        let decoded = self.decode_with_header(alloc, header, message)?;
        if self.is_left_within(may_add, limit) {
            return Ok(decoded);
        }
        self.spent = true;
        Err(MessageFault::TooManyFields)
    }

    // Whether a message may bring a template or a domain. It takes no memory.
    fn may_add(&self, header: &Header, message: &[u8]) -> bool
        requires { message_header message.now ≡ Ok header.now }
        ensures { (ds : History) (m : Message) → StandsFor self.now.domains ds → result ≡ false
            → message_gives ds message.now ≡ Ok m → fields_in m.domains ≡ fields_in ds }
    {
        if self.known.contains_key(&header.domain) {
            return has_template_set(after_header(header, message));
        }
        true
    }

    // Whether the templates count no more than a limit, as they do if nothing was added.
    fn is_left_within(&self, may_add: bool, limit: u64) -> bool
        ensures { (ds : History) → StandsFor self.now.domains ds
            → (may_add ≡ false → fields_in ds ≤ limit) → TellsWithin result limit ds }
    {
        if may_add {
            return are_within(&self.known, limit);
        }
        true
    }

    /// The template that is in force for an id in a domain, or `None` after a fault.
    pub fn lookup(&self, domain: u32, id: u16) -> Option<&Template>
        ensures spent { IsTrue self.now.spent → result ≡ None }
        ensures found { IfUnspent self.now
            (λ ds. option_copied result ≡ template_for ds domain id) }
    {
        if self.spent {
            return None;
        }
        let templates = self.known.get(&domain)?;
        let known = templates.get(&id)?;
        Some(known.template())
    }

    /// The templates that are in force in a domain, by their ids. `None` for a domain that has not
    /// appeared, and after a fault. Each can be written again
    /// ([`TemplateInForce::to_write`](crate::TemplateInForce::to_write)).
    pub fn templates(&self, domain: u32) -> Option<&Templates>
        ensures spent { IsTrue self.now.spent → result ≡ None }
        ensures entries { self.now.spent ≡ false → option_map (λ t. t.entries) (option_copied result)
            ≡ lookup (nat_eq domain) self.now.domains }
        ensures found { IfUnspent self.now (λ ds. (id : ℕ)
            → option_and_then (λ t. get nat_cmp t id) (option_copied result)
            ≡ template_for ds domain id) }
    {
        if self.spent {
            return None;
        }
        self.known.get(&domain)
    }

    /// Whether a message of a domain can be taken: the domain is one of these, or finds room among them.
    pub fn has_room(&self, domain: u32) -> bool
        ensures { (ds : History) → StandsFor self.now.domains ds → MatchBool result
            (IsOk (admit ds domain)) (admit ds domain ≡ Err TooManyDomains) }
    {
        if self.known.contains_key(&domain) {
            return true;
        }
        self.known.len() < MAX_DOMAINS
    }

    /// Checks a message, whose header was read, up to its first template set, and answers whether it has none
    /// and its domain has appeared: then it can be decoded, and changes no template. The fault is that of
    /// decoding it. This takes no memory. After a fault of an earlier message the answer is `false`.
    pub fn check_data(&self, header: &Header, message: &[u8]) -> Result<bool, MessageFault>
        requires { message_header message.now ≡ Ok header.now }
        ensures spent { IsTrue self.now.spent → result ≡ Ok false }
        ensures checked { IfUnspent self.now
            (λ ds. IsChecked result ds header.now.domain message.now) }
    {
        let Some(templates) = self.templates(header.domain) else {
            return Ok(false);
        };
        check_sets(after_header(header, message), templates)
    }

    /// Only one of the domains, with the templates that are in force in it, or none if it has not
    /// appeared. What is decoded there changes nothing here.
    pub fn alone(&self, alloc: Global, domain: u32) -> Result<Domains, AllocError>
        ensures spent { IfOk result (λ d. d.spent ≡ self.now.spent) }
        ensures templates { IfOk result (λ d. (ds : History) → StandsFor self.now.domains ds
            → StandsFor d.domains (alone ds domain)) }
    {
        let mut known = IndexMap::new(alloc);
        let Some(templates) = self.known.get(&domain) else {
            return Ok(Domains {
                known,
                spent: self.spent,
            });
        };
        let copy = templates.clone()?;
        let _ = known.insert(domain, copy)?;
        Ok(Domains {
            known,
            spent: self.spent,
        })
    }
}
