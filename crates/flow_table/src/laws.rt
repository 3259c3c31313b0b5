//! Laws of plans and of tables: a list of records has one table, which is the same for every order of
//! the list and fits its plan.

ghost use Rattle.std.specs.Prelude.{◌≡◌, ◌+◌, ◌^◌, ◌++◌, ◌↔◌, true, false, ◌<◌, ◌≤◌, ℕ, List, [], None, Some, All, IsPermutation, flat_map, sum, sum_by};
ghost use Rattle.ipfix_message.specs.DataRecords.{HasOctets};
ghost use Rattle.ipfix_message.specs.declared.record.DataRecord.{DataRecord};
ghost use Rattle.flow_table.specs.AddedUp.{AddUpTooLarge, AreRowsOfAll, ForListsOf, HasTooLargeRow, all_records, rows_in};
ghost use Rattle.flow_table.specs.Bags.{IsFreeOfOrder, IsInterleaving, IsSameBag, Records};
ghost use Rattle.flow_table.specs.Fitting.{FitsPlan};
ghost use Rattle.flow_table.specs.Intervals.{covered_by, share};
ghost use Rattle.flow_table.specs.Missing.{missing_of};
ghost use Rattle.ipfix_elements.specs.declared.kind.Kind.TheVariants.{Unsigned};
ghost use Rattle.ipfix_elements.specs.declared.kind.Width.TheVariants.{Eight};
ghost use Rattle.element_registry.specs.Registries.{Known, IsRegistry, element_kind};
ghost use Rattle.element_registry.specs.declared.kind.ElementKind.TheVariants.{Plain};
ghost use Rattle.ipfix_wire.specs.declared.specifier.ElementId.{ElementId};
ghost use Rattle.flow_table.specs.declared.key.Key.{Key};
ghost use Rattle.flow_table.specs.Plans.{ForValid, IsPlan, IsValid, KindsStay, PlanValue, basic, chosen_fault, context_name, context_named, first_fault, is_taken_total, kinds_of};
ghost use Rattle.flow_table.specs.Reading.{AgreeWithout, IsSure, TimesStay, end_of, end_without_uptime, init_time, latest_end, start_of, start_without_uptime, told_end, uptime_at_end, uptime_at_start, uptime_end_of};
ghost use Rattle.flow_table.specs.declared.choices.Times.TheVariants as times;
ghost use Rattle.flow_table.specs.SameTables.{IsSameTable};
ghost use Rattle.flow_table.specs.Tables.{ForCounts, IsTable, IsTooLarge, tally_of};
ghost use Rattle.flow_table.specs.declared.table.Table.{Table};
ghost use Rattle.flow_table.specs.declared.plan.TheConstants.{MAX_KEYS, MAX_COUNTERS, MAX_SPREAD};
ghost use Rattle.flow_table.specs.declared.times.TheConstants.{TIME_LIMIT};

use crate::plan::Plan;

/// Plans compare by value.
pub fn plans_compare_by_value()
    ensures { (a b : PlanValue) → (⟦<Plan as PartialEq>⟧.eq a b ≡ true) ↔ (a ≡ b) }
{}

/// A plan of built-in elements is one, and has the same kinds, whatever files say.
pub fn built_in_plans_stay()
    ensures no_fault { (known : List Known) → ForValid [] (IsValid known) }
    ensures same { (known : List Known) → ForValid [] (λ plan. KindsStay known plan.keys) }
{}

/// What is a plan whose keys are read from the fields of records alone is one with elements of context, too.
pub fn plans_of_records_stay()
    ensures { (known : List Known) (length max_spread : ℕ) (keys : List Key)
        (counters : List ElementId) → first_fault known length keys counters max_spread ≡ None
        → chosen_fault known basic length keys counters max_spread ≡ None }
{}

/// A name of context is that of the element which it names, and of no other.
pub fn context_names_are_read()
    ensures { (e : ElementId) (name : List ℕ)
        → (context_name e ≡ Some name) ↔ (context_named name ≡ Some e) }
{}

/// A flow that has a start, or an end, in milliseconds or seconds has the same where times of every kind
/// are read.
pub fn basic_times_stay()
    ensures start { TimesStay (start_of times.Basic) (start_of times.All) }
    ensures end { TimesStay (end_of times.Basic) (end_of times.All) }
{}

/// Times of every kind of a record without systemInitTimeMilliseconds (160) are those that other elements than
/// uptimes say, or follow from these by the flow's duration.
pub fn uptimes_count_from_an_init_time()
    ensures start { AgreeWithout init_time (start_of times.All) start_without_uptime }
    ensures end { AgreeWithout init_time (end_of times.All) end_without_uptime }
{}

/// A time by uptime is no guess. However often the uptime began anew until a flow ended, which is not after its
/// message, or until it started, which is not after it ended: that time is the one that is read, or none is.
pub fn uptimes_are_no_guesses()
    ensures end { (r : DataRecord) → told_end r ≡ None → IsSure r uptime_at_end (latest_end r) }
    ensures start { (r : DataRecord) (e : ℕ) → uptime_end_of r ≡ Some e → IsSure r uptime_at_start e }
{}

/// Whatever no fault fits, with the kinds of its keys, is a plan.
pub fn faultless_plans()
    ensures { (known : List Known)
        → ForValid known (λ p. p.kinds ≡ kinds_of known p.keys → IsPlan p) }
{}

/// Each counter of a plan, but a total that is taken as a delta, is an unsigned64, and so has the kind by
/// which all counters are read, whatever files say.
pub fn counters_have_one_kind()
    ensures { (known : List Known) (plan : PlanValue) → IsRegistry known
        → IsValid known plan → All (λ c. is_taken_total plan.choices.totals c ≡ false
        → element_kind known c ≡ Plain (Unsigned Eight)) plan.counters }
{}

/// By every method the shares of the intervals that a flow covers add up to its counter (RFC 7015,
/// section 5.1.1).
pub fn shares_add_up()
    ensures { (plan : PlanValue) (start end value : ℕ) → 0 < plan.length → start ≤ end
        → sum_by (share plan start end value) (covered_by plan.length start end) ≡ value }
{}

/// What records lack adds up to their classes: the untimed ones lack a start or an end, the unkeyed
/// ones a first key, and a counter lacks in no more records than are used.
pub fn missing_adds_up()
    ensures untimed { ForCounts
        (λ plan missing tally. missing.start + missing.end ≡ tally.untimed) }
    ensures unkeyed { ForCounts
        (λ plan missing tally. IsPlan plan → sum missing.keys ≡ tally.unkeyed) }
    ensures used { ForCounts (λ plan missing tally. All (λ n. n ≤ tally.used) missing.counters) }
{}

/// A list of records has no two tables.
pub fn one_table()
    ensures { (plan : PlanValue) (rs : Records) (t u : Table)
        → IsTable plan rs t → IsTable plan rs u → IsSameTable t u }
{}

/// A list of records and each permutation of it are the same bag.
pub fn permutation_is_same_bag()
    ensures { (rs qs : Records) → IsPermutation rs qs → IsSameBag rs qs }
{}

/// Two lists of records, taken turn by turn, are the same bag as one after the other.
pub fn interleaving_is_same_bag()
    ensures { (rs qs all : Records) → IsInterleaving rs qs all → IsSameBag all (rs ++ qs) }
{}

/// Which of two lists of records stands first doesn't matter.
pub fn either_list_first()
    ensures { (rs qs : Records) → IsSameBag (rs ++ qs) (qs ++ rs) }
{}

/// To be the same bag is an equivalence, and lists one after the other are the same bag if each of
/// them is.
pub fn same_bag_laws()
    ensures reflexive { (rs : Records) → IsSameBag rs rs }
    ensures symmetric { (rs qs : Records) → IsSameBag rs qs → IsSameBag qs rs }
    ensures transitive { (rs qs ps : Records)
        → IsSameBag rs qs → IsSameBag qs ps → IsSameBag rs ps }
    ensures one_after_the_other { (rs qs more others : Records)
        → IsSameBag rs qs → IsSameBag more others → IsSameBag (rs ++ more) (qs ++ others) }
{}

/// The table of a list of records, and whether it is too large, are the same for every order of the
/// list.
pub fn order_is_free()
    ensures table { (plan : PlanValue) (table : Table)
        → IsFreeOfOrder (λ rs. IsTable plan rs table) }
    ensures too_large { (plan : PlanValue) → IsFreeOfOrder (IsTooLarge plan) }
{}

/// What is too large stays too large when more records are added.
pub fn too_large_stays()
    ensures { (plan : PlanValue) (rs qs : Records)
        → IsTooLarge plan rs → IsTooLarge plan (rs ++ qs) }
{}

/// The table of a list of records that isn't too large fits the plan.
///
/// The octets of the records' fields are to be octets: `ipfix_message` owes this for the records that
/// a message gives.
pub fn tables_fit()
    ensures { (plan : PlanValue) (rs : Records) (table : Table)
        → IsPlan plan → All HasOctets rs → (IsTooLarge plan rs → ⊥)
        → IsTable plan rs table → FitsPlan plan table }
{}

/// The rows of the tables of some lists of records, added up, are those of the table of all these
/// records. They are too large if and only if a sum or a number of flows in that table is.
pub fn tables_add_up()
    ensures table { (plan : PlanValue) (lists : List Records) (all : Table)
        → AreRowsOfAll plan lists (rows_in all) → let rs = all_records lists in
        all.tally ≡ tally_of plan rs → all.missing ≡ missing_of plan rs → IsTable plan rs all }
    ensures too_large { (plan : PlanValue) (tables : List Table)
        → ForListsOf plan tables (λ lists. AddUpTooLarge (flat_map rows_in tables)
        ↔ HasTooLargeRow plan (all_records lists)) }
{}

/// However some records are split into lists, and in whatever order, the rows of the lists' tables add
/// up to the same rows.
pub fn any_split_adds_up()
    ensures { (plan : PlanValue) (lists others : List Records) (a b : Table)
        → AreRowsOfAll plan lists (rows_in a) → AreRowsOfAll plan others (rows_in b)
        → IsSameBag (all_records lists) (all_records others) → rows_in a ≡ rows_in b }
{}

/// A plan has at most 8 keys and 4 counters, and lets a flow cover at most 4,096 intervals. Times are
/// below 2^50 ms.
pub fn limits()
    ensures keys { MAX_KEYS ≡ 8 }
    ensures counters { MAX_COUNTERS ≡ 4 }
    ensures spread { MAX_SPREAD ≡ 4096 }
    ensures times { TIME_LIMIT ≡ 1125899906842624 }
{}
