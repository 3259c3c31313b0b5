//! The plan that counts estimates in place of another's counters.

ghost use Rattle.std.specs.Prelude.{◌≡◌, ◌≢◌, None, Some, IfErr, IfOk, OnOk};
ghost use Rattle.flow_table.specs.Plans.{IsPlan};
ghost use Rattle.flow_plan_fields.specs.Scaled.{counting_fault, plan_counting, IsNotScaled, IsScaled};
ghost use Rattle.flow_plan_fields.specs.declared.scaling.ScalingFault.TheVariants as faults;

use crate::estimates::{are_estimable, estimates_of, scaled_counters};
use crate::known_estimates::add_estimates;
use element_registry::{Elements, ElementsFault};
use flow_estimates::Estimates;
use flow_table::{Plan, PlanFault};
use ipfix_wire::ElementId;
use std::alloc::{AllocError, AllocFailed, Global};

/// A plan that counts estimates, the elements with their names, and the estimates that its records need.
#[derive(Drop)]
pub struct ScaledPlan {
    pub elements: Elements,
    pub plan: Plan,
    pub estimates: Estimates,
}

/// What makes that the counters of a plan can't be scaled: the first of these that applies.
#[derive(Clone, Copy, Debug, PartialEq, Eq)]
pub enum ScalingFault {
    /// A counter is no element of IANA's, or has a number of 31768 or more.
    Counter,
    /// An estimate's element can't be known, as where a file of elements has its number or its name.
    Elements(ElementsFault),
    /// A plan that counts estimates has this fault, as where the plan has one of them already.
    Plan(PlanFault),
    /// An allocation was refused.
    OutOfMemory,
}

impl From<AllocError> for ScalingFault {
    ghost from_gives = { λ _ e. e ≡ faults.OutOfMemory };

    fn from(_e: AllocError) -> ScalingFault {
        ScalingFault::OutOfMemory
    }
}

impl<T: Drop> From<AllocFailed<T>> for ScalingFault {
    ghost from_gives = { λ _ e. e ≡ faults.OutOfMemory };

    fn from(_e: AllocFailed<T>) -> ScalingFault {
        ScalingFault::OutOfMemory
    }
}

/// The plan that counts estimates in place of this plan's counters, but deltaFlowCount. The estimate of element n has
/// the number 1000 + n under [`EXAMPLES_PEN`](crate::EXAMPLES_PEN), and its name and `_estimated`.
pub fn scale(alloc: Global, elements: Elements, plan: &Plan) -> Result<ScaledPlan, ScalingFault>
    ensures ok { IfOk result (IsScaled elements plan.now) }
    ensures err { IfErr result (IsNotScaled elements plan.now) }
    ensures sound { IfOk result (λ s. IsPlan s.plan) }
{
    if !are_estimable(plan.counters()) {
        return Err(ScalingFault::Counter);
    }
    let keys = estimates_of(alloc, plan.counters())?;
    let elements = match add_estimates(alloc, elements, &keys) {
        Ok(elements) => elements,
        Err(fault) => return Err(ScalingFault::Elements(fault)),
    };
    let counters = scaled_counters(alloc, plan.counters())?;
    match with_counters(alloc, &elements, plan, &counters) {
        Ok(plan) => Ok(ScaledPlan {
            elements,
            plan,
            estimates: Estimates { keys },
        }),
        Err(PlanFault::OutOfMemory) => Err(ScalingFault::OutOfMemory),
        Err(fault) => Err(ScalingFault::Plan(fault)),
    }
}

// A plan with these counters in place of its own.
fn with_counters(
    alloc: Global,
    elements: &Elements,
    plan: &Plan,
    counters: &[ElementId],
) -> Result<Plan, PlanFault>
    ensures ok { IfOk result (λ other. other ≡ plan_counting elements.now plan.now counters.now) }
    ensures faultless { OnOk result (counting_fault elements.now plan.now counters.now ≡ None) }
    ensures fault { IfErr result (λ fault. fault ≢ PlanFault.OutOfMemory
        → counting_fault elements.now plan.now counters.now ≡ Some fault) }
    ensures sound { IfOk result IsPlan }
{
    Plan::with_elements(
        alloc,
        elements,
        plan.length(),
        plan.method(),
        plan.keys(),
        counters,
        plan.max_spread(),
        plan.choices(),
    )
}
