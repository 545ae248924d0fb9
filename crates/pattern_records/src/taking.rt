// A line's keyword with its numbers, taken up into a pattern.
ghost use Rattle.std.specs.Result.{MatchResult};
ghost use Rattle.pattern_records.specs.Patterns.{TakesEntry, TakesCells, Takes, RefusesEntry, RefusesCells, Refuses};

use crate::cells::add_cells;
use crate::fault::Fault;
use crate::keyword::Keyword;
use crate::pattern::Pattern;
use crate::statement::stated;
use records::Entry;

impl Pattern {
    // One entry. A period begins the count of cells anew.
    fn take_entry(&mut self, keyword: Keyword, numbers: &[u16]) -> Result<(), Fault>
        ensures { MatchResult result (λ _. TakesEntry keyword numbers.now self.old self.new) (RefusesEntry keyword numbers.now) }
    {
        let entry = stated(keyword, numbers).ok_or(Fault::Wants(keyword))?;
        self.entries.push(entry)?;
        if let Entry::Period(periods) = entry {
            self.periods = Some(periods);
            self.cells = 0;
        }
        Ok(())
    }

    // The next cells of the period.
    fn take_cells(&mut self, codes: &[u16]) -> Result<(), Fault>
        ensures { MatchResult result (λ _. TakesCells codes.now self.old self.new) (RefusesCells codes.now self.old) }
    {
        if codes.is_empty() {
            return Err(Fault::Wants(Keyword::Cells));
        }
        let periods = self.periods.ok_or(Fault::EarlyCells)?;
        let first = self.cells;
        self.cells = add_cells(&mut self.entries, &periods, first, codes)?;
        Ok(())
    }

    // Takes up what a keyword says with its numbers.
    pub fn take(&mut self, keyword: Keyword, numbers: &[u16]) -> Result<(), Fault>
        ensures { MatchResult result (λ _. Takes keyword numbers.now self.old self.new) (Refuses keyword numbers.now self.old) }
    {
        match keyword {
            Keyword::Cells => self.take_cells(numbers),
            _ => self.take_entry(keyword, numbers),
        }
    }
}
