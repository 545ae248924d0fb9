// Rows: the staircase of a subject and its reduced Groebner basis, line by line.
#![tactic(auto)]

mod line;
mod lookup;
mod tally;
mod theorems;
mod verdict;

pub use line::Line;
pub use lookup::{is_judged, is_multiple};
pub use tally::{Tally, count};
pub use theorems::{kept_lines, one_continuation, one_line, one_remainder, one_row};
pub use verdict::Verdict;
