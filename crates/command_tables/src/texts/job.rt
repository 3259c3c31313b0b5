//! How texts are made of tables.

use element_registry::Elements;
use flow_table::Plan;
use output_tables::Output;
use table_parts::PlanAtHand;

/// How texts are made of the tables in IPFIX of a plan.
#[derive(Clone, Copy)]
pub struct TextJob<'a> {
    /// These name the keys and counters.
    pub elements: &'a Elements,
    pub plan: &'a Plan,
    /// The plan, as a receipt tells one.
    pub at_hand: PlanAtHand<'a>,
    /// How the texts are written.
    pub output: Output,
    /// The version of collectd, as `1.2.3`, which the receipt of a text tells.
    pub collectd: &'a str,
}
