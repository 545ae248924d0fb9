// The printout of a file of records: the listing of the row that the file means, or the line of a refusal.
#![tactic(auto)]

mod copying;
mod printing;
mod working;

pub use printing::printout;
