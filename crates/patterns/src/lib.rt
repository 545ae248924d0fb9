// Patterns as files of records: what a file means, or why it is refused.
#![tactic(auto)]

mod cells;
mod codes;
mod decoding;
mod order_kind;
mod plan;
mod planning;
mod reading;
mod refusing;
mod singles;
mod singling;

pub use plan::{FieldKind, OrderKind, Plan};
pub use reading::read;
