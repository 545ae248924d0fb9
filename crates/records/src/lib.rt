// The 12-byte records of a file: their layout, and what a record of each kind says.
#![tactic(auto)]

mod entry;
mod kind;
mod listed;
mod period;
mod reading;
mod record;
mod unused;
mod writing;

pub use entry::{CellRecord, Entry, FieldRecord, OrderRecord};
pub use kind::Kind;
pub use listed::NotOneToFour;
pub use period::PeriodRecord;
pub use reading::SaysNothing;
pub use record::{NotTwelveBytes, Record};
