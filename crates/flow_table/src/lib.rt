//! The aggregate of data records (RFC 7015): plans, how a flow's counters are shared among
//! intervals, and tables of sums.
#![tactic(auto)]

mod adding;
mod checking;
mod choices;
mod class;
mod context;
mod finishing;
mod flat_table;
mod flow;
mod key;
mod key_words;
pub mod laws;
mod left_out;
mod merging;
mod method;
mod missing;
mod networks;
mod partial;
mod plan;
mod plan_fault;
mod reading;
mod roles;
mod row_totals;
mod rows;
mod run;
mod sharing;
mod span;
mod table;
mod table_fault;
mod taking;
mod tally;
mod times;
mod words;

pub use choices::{Choices, Times, Totals};
pub use class::Class;
pub use context::{
    Context, EXPORTER, EXPORTER_IPV4_ADDRESS, EXPORTER_IPV6_ADDRESS, OBSERVATION_DOMAIN_ID,
    context_kind, context_name, context_named,
};
pub use flat_table::FlatTable;
pub use key::Key;
pub use method::Method;
pub use missing::Missing;
pub use networks::project;
pub use partial::Partial;
pub use plan::{MAX_COUNTERS, MAX_KEYS, MAX_SPREAD, Plan};
pub use plan_fault::PlanFault;
pub use reading::has_great_counter;
pub use roles::{is_counter, is_key, is_prefix_of, may_count};
pub use row_totals::RowTotals;
pub use sharing::share;
pub use table::{Row, RowPlace, Table};
pub use table_fault::TableFault;
pub use tally::Tally;
pub use times::TIME_LIMIT;
