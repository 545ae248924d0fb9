// The worksheet by C's calling convention: numbers and lists of numbers in, numbers out. Each call is given a pattern: a field
// kind (0 residues, 1 binary) and its modulus or degree, an order (0 lexicographic, 1 graded), the periods and the cells. It
// works the pattern out, and answers 0 where anything is refused.
#![tactic(auto)]

mod answering;
mod dispatch;
mod exports;
mod numbers;
mod pattern;
mod question;
mod writing;

pub use exports::{linked_lines, linked_refills, linked_remainders};
