// Refill: the code of the continued array at a monomial, from the lines alone.
#![tactic(auto)]

mod border;
mod entry;
mod factor;
mod fill;
mod lookup;
mod place;
mod product;
mod refill;
mod table;
mod walk;

pub use refill::refill_code;
