// What the lines so far say.
ghost use Rattle.pattern_records.specs.Patterns.{Empty};

use records::{Entry, PeriodRecord};
use std::alloc::Global;

// The entries so far, the last period, and how many of its cells were given.
#[derive(Drop)]
pub struct Pattern {
    pub entries: Vec<Entry>,
    pub periods: Option<PeriodRecord>,
    pub cells: usize,
}

impl Pattern {
    // Nothing was said yet.
    pub fn new(heap: Global) -> Pattern
        ensures { Empty result }
    {
        Pattern {
            entries: Vec::new(heap),
            periods: None,
            cells: 0,
        }
    }
}
