// Terms of polynomials; the theory of polynomials, of what they annihilate, of periodic arrays and of point sets stands in specs and proofs.
#![tactic(auto)]

mod cells;
mod term;
mod term_faults;

pub use cells::{cell_at, cell_count, is_inside};
pub use term::Term;
pub use term_faults::{first_code_outside, first_exponent_outside, is_admitted};
