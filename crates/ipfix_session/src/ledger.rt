//! The loss ledger of a session: what the sequence numbers of its messages say (RFC 7011, section 3.1).

ghost use Rattle.std.specs.Prelude.{◌≡◌, ◌+◌, ◌<◌, ◌≤◌, ◌++◌, ◌∷◌, [], List, OnOk, nat_eq, map, unwrap_or};
ghost use Rattle.std.specs.Vec.{vec_capacity};
ghost use Rattle.indexmap.specs.IndexMap.{get, spare, index_map_len};
ghost use Rattle.ipfix_message.specs.Domains.{Message};
ghost use Rattle.ipfix_session.specs.Ledger.{count_in};
ghost use Rattle.ipfix_session.specs.Accounts.{account_of, accounts_of, balance_of, report_of};

use crate::account::{Account, next_after};
use crate::report::{DomainBalance, DomainReport};
use indexmap::IndexMap;
use ipfix_message::PassedOver;
use ipfix_wire::Header;
use std::alloc::{AllocError, Global};

/// The accounts of a session's domains, in order of first appearance.
#[derive(Drop)]
pub struct Ledger {
    pub accounts: IndexMap<u32, Account>,
    // Room for the reports and balances of all domains.
    reports: Vec<DomainReport>,
    balances: Vec<DomainBalance>,
    ghost no_reports: { reports.items ≡ [] },
    ghost no_balances: { balances.items ≡ [] },
    ghost report_room: { index_map_len accounts ≤ vec_capacity reports },
    ghost balance_room: { index_map_len accounts ≤ vec_capacity balances },
}

impl Ledger {
    ghost use Rattle.ipfix_session.specs.Rooms.{domain_count};

    /// A ledger of no messages.
    pub fn new(alloc: Global) -> Self
        ensures { result.accounts.entries ≡ [] }
    {
        Ledger {
            accounts: IndexMap::new(alloc),
            reports: Vec::new(alloc),
            balances: Vec::new(alloc),
        }
    }

    /// Makes room for the domains of `messages` more messages.
    pub fn make_room(&mut self, messages: usize) -> Result<(), AllocError>
        ensures same { self.new.accounts.entries ≡ self.old.accounts.entries }
        // The room that there is stays.
        ensures domains { domain_count self.new ≡ domain_count self.old }
        ensures same_accounts { spare self.old.accounts ≤ spare self.new.accounts }
        ensures same_reports { vec_capacity self.old.reports ≤ vec_capacity self.new.reports }
        ensures same_balances { vec_capacity self.old.balances ≤ vec_capacity self.new.balances }
        ensures accounts { OnOk result (messages ≤ spare self.new.accounts) }
        ensures reports { OnOk result
            (domain_count self.new + messages ≤ vec_capacity self.new.reports) }
        ensures balances { OnOk result
            (domain_count self.new + messages ≤ vec_capacity self.new.balances) }
    {
        self.accounts.reserve(messages)?;
        let domains = self.accounts.len().checked_add(messages);
        let domains = domains.ok_or(AllocError)?;
        self.reports.reserve(domains)?;
        self.balances.reserve(domains)
    }

    /// The account of a domain, or an empty one.
    pub fn account(&self, domain: u32) -> Account
        ensures { result ≡ unwrap_or (get nat_eq self.now.accounts domain) (account_of []) }
    {
        self.accounts
            .get(&domain)
            .copied()
            .unwrap_or(Account::EMPTY)
    }

    /// Takes a message into account: so many records, and what it passed over.
    pub fn take(&mut self, header: &Header, records: u64, passed_over: PassedOver)
        requires account { 0 < spare self.old.accounts }
        requires report { domain_count self.old < vec_capacity self.old.reports }
        requires balance { domain_count self.old < vec_capacity self.old.balances }
        // It takes the room of one domain at most.
        ensures spare { spare self.old.accounts ≤ spare self.new.accounts + 1 }
        ensures domains { domain_count self.new ≤ domain_count self.old + 1 }
        ensures reports { vec_capacity self.new.reports ≡ vec_capacity self.old.reports }
        ensures balances { vec_capacity self.new.balances ≡ vec_capacity self.old.balances }
        ensures taken { (ms : List Message) (m : Message)
            → self.old.accounts.entries ≡ accounts_of ms
            → m.header ≡ header.now → count_in m ≡ records → m.decoding.passed_over ≡ passed_over
            → self.new.accounts.entries ≡ accounts_of (ms ++ m ∷ []) }
    {
        let before = self.account(header.domain);
        let next = next_after(header.sequence, records, passed_over.unknown_sets);
        let after = before.after(header.sequence, records, passed_over, next);
        let _ = self.accounts.insert(header.domain, after).unwrap();
    }

    /// The reports and the balances of the domains. This takes no memory, since there is room.
    pub fn into_reports(self) -> (Vec<DomainReport>, Vec<DomainBalance>)
        ensures reports { result.0.items ≡ map report_of self.accounts.entries }
        ensures balances { result.1.items ≡ map balance_of self.accounts.entries }
    {
        let Ledger {
            accounts,
            mut reports,
            mut balances,
        } = self;
        for (domain, account) in accounts.iter() {
            let report = DomainReport {
                domain: *domain,
                count: account.count,
                lost: account.lost,
                backward: account.backward,
            };
            reports.push(report).unwrap();
            let balance = DomainBalance {
                domain: *domain,
                passed_over: account.passed_over,
                unaccounted: account.unaccounted,
                late: account.late,
            };
            balances.push(balance).unwrap();
        }
        (reports, balances)
    }
}
