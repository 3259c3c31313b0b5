//! Plans of an aggregation.

use crate::checking::first_fault;
use crate::choices::Choices;
use crate::context::{
    Context, EXPORTER, EXPORTER_IPV4_ADDRESS, EXPORTER_IPV6_ADDRESS, OBSERVATION_DOMAIN_ID,
};
use crate::key::{Key, KeyElements};
use crate::method::Method;
use crate::plan_fault::PlanFault;
use crate::roles::kinds_of;
use element_registry::Elements;
use ipfix_elements::Kind;
use ipfix_wire::ElementId;
use std::alloc::{AllocError, Global};
use std::marker::Model;

mod comparing;

/// The most keys of a plan.
pub const MAX_KEYS: usize = 8;

/// The most counters of a plan.
pub const MAX_COUNTERS: usize = 4;

/// The largest number of intervals that a plan may let a flow be spread over.
pub const MAX_SPREAD: u32 = 4096;

/// How data records are aggregated (RFC 7015, section 5): the length of an interval in milliseconds,
/// how a flow's counters are distributed among intervals, the keys and the counters of the table,
/// the most intervals that a flow may cover if its counters are spread over them, and what a plan may
/// choose.
#[derive(Debug, Drop)]
pub struct Plan {
    length: u32,
    method: Method,
    keys: Vec<Key>,
    kinds: Vec<Kind>,
    counters: Vec<ElementId>,
    max_spread: u32,
    choices: Choices,
}

impl Model for Plan {
    ghost use Rattle.flow_table.specs.Plans.{PlanValue, plan_with, IsPlan};

    ghost Value = { PlanValue };

    ghost view = { λ p. plan_with p.length p.method p.keys.items p.kinds.items p.counters.items p.max_spread p.choices };

    ghost invariant = { λ p. IsPlan (plan_with p.length p.method p.keys.items p.kinds.items p.counters.items p.max_spread p.choices) };
}

impl Plan {
    ghost use Rattle.std.specs.Prelude.{◌≡◌, ◌≤◌, ◌<◌, [], None, length, All, IfOk, OnOk};
    ghost use Rattle.std.specs.List.{AllPass};
    ghost use Rattle.flow_table.specs.PlanFaults.{FaultIsFirst, IfNoMemory};
    ghost use Rattle.flow_table.specs.Plans.{IsPlan, HasPrefix, is_value, is_key_kind, chosen_fault, chosen_plan, context_of, has_key, plan_value, first_fault};

    /// The plan of the arguments, or the first fault that fits them, in this order: `Length`,
    /// `Spread`, `KeyCount`, `KeyKind`, `Prefix`, `CounterCount`, `CounterKind`, `Repeated`.
    /// Its keys are built in; one of context is fault `KeyKind`. `OutOfMemory` comes only if none fits.
    #[tactic(auto, using(crate::proofs::MadePlans::records_fault))]
    pub fn new(
        alloc: Global,
        length: u32,
        method: Method,
        keys: &[Key],
        counters: &[ElementId],
        max_spread: u32,
    ) -> Result<Plan, PlanFault>
        ensures ok { IfOk result
            (λ p. p ≡ plan_value length method keys.now counters.now max_spread) }
        ensures sound { OnOk result
            (IsPlan (plan_value length method keys.now counters.now max_spread)) }
        ensures faultless { OnOk result
            (first_fault [] length keys.now counters.now max_spread ≡ None) }
        ensures fault { FaultIsFirst result
            (first_fault [] length keys.now counters.now max_spread) }
        ensures memory { IfNoMemory result
            (first_fault [] length keys.now counters.now max_spread ≡ None) }
    {
        let elements = Elements::built_in(alloc);
        let choices = Choices::BASIC;
        if let Some(fault) = first_fault(
            KeyElements::OfRecords,
            &elements,
            length,
            keys,
            counters,
            max_spread,
            choices,
        ) {
            return Err(fault);
        }
        Ok(Plan::made(
            alloc, &elements, length, method, keys, counters, max_spread, choices,
        )?)
    }

    /// The plan of the arguments, whose elements may be built in or known from files, or the first
    /// fault that fits them, in the order of [`Plan::new`]. A truth value may be a key: it is read
    /// as a number of one octet. So may an element of context, whatever files say of it. A counter of a file is an unsigned number and a delta counter; a total may
    /// be one by choice.
    /// `OutOfMemory` comes only if no fault fits.
    pub fn with_elements(
        alloc: Global,
        elements: &Elements,
        length: u32,
        method: Method,
        keys: &[Key],
        counters: &[ElementId],
        max_spread: u32,
        choices: Choices,
    ) -> Result<Plan, PlanFault>
        ensures ok { IfOk result (λ plan. plan
            ≡ chosen_plan elements.now choices length method keys.now counters.now max_spread) }
        ensures faultless { OnOk result
            (chosen_fault elements.now choices length keys.now counters.now max_spread ≡ None) }
        ensures fault { FaultIsFirst result
            (chosen_fault elements.now choices length keys.now counters.now max_spread) }
        ensures memory { IfNoMemory result
            (chosen_fault elements.now choices length keys.now counters.now max_spread ≡ None) }
    {
        if let Some(fault) = first_fault(
            KeyElements::WithContext,
            elements,
            length,
            keys,
            counters,
            max_spread,
            choices,
        ) {
            return Err(fault);
        }
        Ok(Plan::made(
            alloc, elements, length, method, keys, counters, max_spread, choices,
        )?)
    }

    // The plan of arguments that no fault fits.
    fn made(
        alloc: Global,
        elements: &Elements,
        length: u32,
        method: Method,
        keys: &[Key],
        counters: &[ElementId],
        max_spread: u32,
        choices: Choices,
    ) -> Result<Plan, AllocError>
        requires { chosen_fault elements.now choices length keys.now counters.now max_spread
            ≡ None }
        ensures { IfOk result (λ plan. plan
            ≡ chosen_plan elements.now choices length method keys.now counters.now max_spread) }
    {
        let keys = keys.to_vec(alloc)?;
        let kinds = kinds_of(alloc, elements, &keys)?;
        let counters = counters.to_vec(alloc)?;
        Ok(Plan {
            length,
            method,
            keys,
            kinds,
            counters,
            max_spread,
            choices,
        })
    }

    /// The length of an interval in milliseconds, above 0.
    pub fn length(&self) -> u32
        ensures value { result ≡ self.now.length }
        ensures positive { 0 < result }
        ensures sound { IsPlan self.now }
    {
        self.length
    }

    /// How a flow's counters are distributed among intervals.
    pub fn method(&self) -> Method
        ensures { result ≡ self.now.method }
    {
        self.method
    }

    /// The keys of the table, at most [`MAX_KEYS`].
    #[tactic(auto, using(crate::proofs::PlanKeys::prefixes_of_plan))]
    pub fn keys(&self) -> &[Key]
        ensures value { result.now ≡ self.now.keys }
        ensures few { length result.now ≤ MAX_KEYS }
        ensures prefixes { All HasPrefix result.now }
    {
        &self.keys
    }

    /// The kinds that the fields of the keys are read by, in the order of the keys: numbers and
    /// addresses.
    #[tactic(auto, using(crate::proofs::PlanKeys::kinds_of_plan))]
    pub fn kinds(&self) -> &[Kind]
        ensures value { result.now ≡ self.now.kinds }
        ensures beside { length result.now ≡ length self.now.keys }
        ensures comparable { AllPass is_key_kind result.now }
    {
        &self.kinds
    }

    /// What `kinds` gives, of a plan that is done with.
    pub(crate) fn into_kinds(self) -> Vec<Kind>
        ensures { result.items ≡ self.kinds }
    {
        self.kinds
    }

    /// The counters of the table, 1 to [`MAX_COUNTERS`].
    #[tactic(auto, using(crate::proofs::PlanKeys::counters_of_plan))]
    pub fn counters(&self) -> &[ElementId]
        ensures value { result.now ≡ self.now.counters }
        ensures some { 1 ≤ length result.now }
        ensures few { length result.now ≤ MAX_COUNTERS }
        ensures values { AllPass is_value result.now }
        ensures sound { IsPlan self.now }
    {
        &self.counters
    }

    /// The most intervals that a flow may cover if its counters are spread over them, 1 to
    /// [`MAX_SPREAD`].
    pub fn max_spread(&self) -> u32
        ensures value { result ≡ self.now.max_spread }
        ensures some { 1 ≤ result }
        ensures few { result ≤ MAX_SPREAD }
    {
        self.max_spread
    }

    /// Which elements of context the keys name.
    pub fn context(&self) -> Context
        ensures { result ≡ context_of self.now }
    {
        Context {
            exporter: self.has_key(EXPORTER),
            exporter_ipv4_address: self.has_key(EXPORTER_IPV4_ADDRESS),
            exporter_ipv6_address: self.has_key(EXPORTER_IPV6_ADDRESS),
            observation_domain_id: self.has_key(OBSERVATION_DOMAIN_ID),
        }
    }

    // Whether a key is read from an element.
    fn has_key(&self, element: ElementId) -> bool
        ensures { result ≡ has_key element self.now }
    {
        self.keys.iter().any(|key| key.element == element)
    }

    /// What the plan chooses.
    pub fn choices(&self) -> Choices
        ensures { result ≡ self.now.choices }
    {
        self.choices
    }

    /// A copy of the plan.
    pub fn copy(&self, alloc: Global) -> Result<Plan, AllocError>
        ensures { IfOk result (λ copy. copy ≡ self.now) }
    {
        Ok(Plan {
            length: self.length,
            method: self.method,
            keys: self.keys.to_vec(alloc)?,
            kinds: self.kinds.to_vec(alloc)?,
            counters: self.counters.to_vec(alloc)?,
            max_spread: self.max_spread,
            choices: self.choices,
        })
    }
}
