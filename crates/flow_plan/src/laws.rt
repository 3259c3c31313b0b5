//! Laws of plans as texts. Each is a function that does nothing, and its contract is the law.

ghost use Rattle.std.specs.Prelude.{◌≡◌, ℕ, List, [], Ok};
ghost use Rattle.element_registry.specs.Registries.{Known};
ghost use Rattle.flow_table.specs.Plans.{PlanValue};
ghost use Rattle.flow_plan.specs.PlanTexts.{plan_of_text};

/// A text that is a plan without files is the same plan with all files.
pub fn plans_stay()
    ensures { (known : List Known) (text : List ℕ) (plan : PlanValue)
        → plan_of_text [] text ≡ Ok plan → plan_of_text known text ≡ Ok plan }
{}
