// The worksheet: it judges monomial after monomial into lent lines, and answers from them.
#![tactic(auto)]

mod answers;
mod judged;
mod lines;
mod opening;
mod reading;
mod refills;
mod remaindering;
mod running;
mod selection;
mod stepping;
mod summing;
mod worksheet;

pub use answers::{Ending, Ran, Summary};
pub use worksheet::Worksheet;
