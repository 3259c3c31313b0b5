//! Whether two plans are the same.

ghost use Rattle.std.specs.Prelude.{◌≡◌};
ghost use Rattle.std.specs.Cmp.Lexicographic.{pointwise};
ghost use Rattle.flow_table.specs.SamePlans.{kind_number as kind_number_in, same_kind, same_parts};

use super::Plan;
use ipfix_elements::{Kind, Width};

// The place of a kind among the ten.
fn kind_number(kind: Kind) -> u8
    ensures { result ≡ kind_number_in kind }
{
    match kind {
        Kind::Unsigned(Width::One) => 0,
        Kind::Unsigned(Width::Two) => 1,
        Kind::Unsigned(Width::Four) => 2,
        Kind::Unsigned(Width::Eight) => 3,
        Kind::Ipv4 => 4,
        Kind::Ipv6 => 5,
        Kind::Mac => 6,
        Kind::Seconds => 7,
        Kind::Millis => 8,
        Kind::Octets => 9,
    }
}

fn same_kinds(mut a: &[Kind], mut b: &[Kind]) -> bool
    ensures { result ≡ pointwise same_kind a.entry.now b.entry.now }
{
    while let [kind, kinds @ ..] = a {
        let [other, others @ ..] = b else {
            return false;
        };
        if kind_number(*kind) != kind_number(*other) {
            return false;
        }
        a = kinds;
        b = others;
    }
    b.is_empty()
}

// Whether all but the kinds and what is chosen are the same.
fn have_same_parts(a: &Plan, b: &Plan) -> bool
    ensures { result ≡ same_parts a.now b.now }
{
    a.length == b.length
        && a.method == b.method
        && a.keys.as_slice() == b.keys.as_slice()
        && a.counters.as_slice() == b.counters.as_slice()
        && a.max_spread == b.max_spread
}

impl PartialEq for Plan {
    ghost use Rattle.std.specs.Cmp.{partial_equiv_from_equiv};
    ghost use Rattle.flow_table.specs.SamePlans.{same_plan};
    ghost use Rattle.flow_table.specs.SamePlanLaws.{same_plan_laws};

    ghost eq = { same_plan };

    ghost laws = { partial_equiv_from_equiv same_plan_laws };

    fn eq(&self, other: &Plan) -> bool {
        self.choices == other.choices
            && same_kinds(&self.kinds, &other.kinds)
            && have_same_parts(self, other)
    }
}

impl Eq for Plan {
    ghost use Rattle.flow_table.specs.SamePlanLaws.{same_plan_laws};

    ghost laws = { same_plan_laws };
}
