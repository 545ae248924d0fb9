// Listings: the text of a worksheet's lines, and the line of a refusal.
#![tactic(auto)]

mod joins;
mod lines;
mod numbers;
mod refusals;
mod sheet;

pub use refusals::refusal_line;
pub use sheet::listing;
