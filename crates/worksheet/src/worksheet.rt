// The worksheet itself, with what holds of it whatever its past.
ghost use Rattle.std.specs.Prelude.{◌≤◌, length, take};
ghost use Rattle.worksheet.specs.Invariants.{Sound};

use crate::lines::Lines;

// The lines are lent whole, so how many of them are used stands beside them.
#[derive(Drop)]
pub struct Worksheet<'a> {
    pub(crate) lent: Lines<'a>,
    pub(crate) used: usize,
    pub(crate) variables: usize,
    pub(crate) width: usize,
    pub(crate) order: u32,
    ghost room: { used ≤ length lent.lines.now },
    ghost some: { 1 ≤ variables },
    ghost few: { variables ≤ 4 },
    ghost narrow: { width ≤ 64 },
    ghost sound: { ∥ Sound variables width order (take used lent.lines.now) ∥₁ },
}
