//! The tables of local days and months: each is merged, by their receipts, of the tables of the periods that begin in it.

mod by_name;
mod calendar;
mod day_job;
mod day_tables;
mod gone_inputs;
mod laws;
mod merging;
mod names;
mod placing;
mod receipts;
mod standing;
mod taking;

pub use calendar::Calendar;
pub use day_job::DayJob;
pub use day_tables::{DayTables, DayTexts, take_day_of, take_day_text};
pub use laws::periods_begin_in_one_day;
pub use placing::{days_of, place_periods};
