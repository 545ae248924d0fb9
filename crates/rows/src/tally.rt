// How many of some lines are stairs, and how many relations.
ghost use Rattle.std.specs.Prelude.{◌≡◌, length};
ghost use Rattle.rows.specs.Ideals.{SetUp, Lawful};
ghost use Rattle.rows.specs.Lines.{stairs_of, relations_of};
ghost use Rattle.rows.specs.Sheets.{Kept, Counted};

use crate::line::Line;
use crate::verdict::Verdict;

#[derive(Clone, Copy)]
pub struct Tally {
    pub stairs: usize,
    pub relations: usize,
}

// The tally of some lines; where they are kept to a set-up, it is bounded.
pub fn count(lines: &[Line]) -> Tally
    ensures stairs { result.stairs ≡ length (stairs_of lines.now) }
    ensures relations { result.relations ≡ length (relations_of lines.now) }
    ensures bounds { (U : SetUp) → Lawful U → Kept U lines.now → Counted U lines.now }
{
    let mut stairs = 0;
    let mut relations = 0;
    for line in lines {
        match line.verdict {
            Verdict::Stair => stairs += 1,
            Verdict::Relation => relations += 1,
        }
    }
    Tally { stairs, relations }
}
