//! How many data records are of each class.

ghost use Rattle.std.specs.Prelude.{◌≡◌, ◌+◌, ◌<◌, ◌≤◌, ◌^◌, OnOk, IfOk, IfErr};
ghost use Rattle.flow_table.specs.Partials.{AreTooManyTogether, CountsFit, count_in, one_of, tally_sum};
ghost use Rattle.flow_table.specs.declared.table_fault.TableFault.TheVariants.{SumTooLarge};

use crate::class::Class;
use crate::table_fault::TableFault;

/// How many data records are of each class.
#[derive(Clone, Copy, Debug, PartialEq, Eq)]
pub struct Tally {
    /// Records whose templates have scope fields.
    pub options: u64,
    /// Records without a start or an end.
    pub untimed: u64,
    /// Records that end before they start.
    pub backward: u64,
    /// Records without one of the plan's keys.
    pub unkeyed: u64,
    /// Records that would be given to too many intervals.
    pub too_long: u64,
    /// Records that contribute to the table.
    pub used: u64,
}

impl Tally {
    /// No records.
    pub const EMPTY: Tally = Tally {
        options: 0,
        untimed: 0,
        backward: 0,
        unkeyed: 0,
        too_long: 0,
        used: 0,
    };

    /// Counts a record of a class.
    #[tactic(auto, using(crate::proofs::Sums::same_tally, crate::proofs::Holding::counts_fit))]
    pub(crate) fn count(&mut self, class: Class) -> Result<(), TableFault>
        ensures ok { OnOk result
            ((self.new ≡ tally_sum self.old (one_of class)) × CountsFit self.new) }
        ensures large { IfErr result (λ e. (e ≡ SumTooLarge)
            × (2 ^ 64 ≤ count_in self.old class + 1)) }
    {
        let Tally {
            options,
            untimed,
            backward,
            unkeyed,
            too_long,
            used,
        } = *self;
        match class {
            Class::Options => self.options = sum(options, 1)?,
            Class::Untimed => self.untimed = sum(untimed, 1)?,
            Class::Backward => self.backward = sum(backward, 1)?,
            Class::Unkeyed => self.unkeyed = sum(unkeyed, 1)?,
            Class::TooLong => self.too_long = sum(too_long, 1)?,
            Class::Used => self.used = sum(used, 1)?,
        }
        Ok(())
    }
}

// The sum of two counts.
fn sum(a: u64, b: u64) -> Result<u64, TableFault>
    ensures ok { IfOk result (λ n. (n ≡ a + b) × (n < 2 ^ 64)) }
    ensures large { IfErr result (λ e. (e ≡ SumTooLarge) × (2 ^ 64 ≤ a + b)) }
{
    match a.checked_add(b) {
        Some(n) => Ok(n),
        None => Err(TableFault::SumTooLarge),
    }
}

/// The tally of the records of two tallies.
pub fn together(a: &Tally, b: &Tally) -> Result<Tally, TableFault>
    ensures ok { IfOk result (λ t. (t ≡ tally_sum a.now b.now) × CountsFit t) }
    ensures large { IfErr result (λ e. (e ≡ SumTooLarge) × AreTooManyTogether a.now b.now) }
{
    Ok(Tally {
        options: sum(a.options, b.options)?,
        untimed: sum(a.untimed, b.untimed)?,
        backward: sum(a.backward, b.backward)?,
        unkeyed: sum(a.unkeyed, b.unkeyed)?,
        too_long: sum(a.too_long, b.too_long)?,
        used: sum(a.used, b.used)?,
    })
}
