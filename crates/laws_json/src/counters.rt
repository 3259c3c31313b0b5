//! The law of counters in dumps and in tables. It is a function that does nothing, and its contract is the theorem.

ghost use Rattle.std.specs.Prelude.{◌≡◌, false, List, None, All};
ghost use Rattle.element_registry.specs.Registries.{Known, IsRegistry};
ghost use Rattle.flow_table.specs.Plans.{PlanValue, first_fault_of, is_taken_total};
ghost use Rattle.laws_json.specs.Counters.{IsReadAlike};

/// A counter of a plan, but a total that is taken as a delta, is read by one rule, whatever elements files name. Of the field that a table reads, a dump
/// writes a number if and only if the field has a value in the table, and it is that number. What the dump
/// writes with `?` counts as absent.
pub fn counters_are_read_alike()
    ensures { (known : List Known) (plan : PlanValue) → IsRegistry known
        → first_fault_of known plan ≡ None → All (λ c. is_taken_total plan.choices.totals c ≡ false → IsReadAlike known c) plan.counters }
{}
