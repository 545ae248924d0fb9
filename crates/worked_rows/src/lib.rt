// Worked patterns with their rows.
#![tactic(auto)]

mod patterns;

pub use patterns::worked_patterns;
