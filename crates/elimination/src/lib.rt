// Elimination: one image against the stairs of lines.
#![tactic(auto)]

mod clearing;
mod images;
mod judging;
mod multiples;
mod remaining;

pub use clearing::clear;
pub use images::{first_code, image_of, polynomial_images};
pub use judging::line_of;
pub use multiples::{add_multiple, clearing_factor};
pub use remaining::remainder_codes;
