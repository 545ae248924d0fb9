// The cells that codes in storage order are.
ghost use Rattle.std.specs.Prelude.{MatchResult};
ghost use Rattle.records.specs.Periods.{periods_of};
ghost use Rattle.pattern_records.specs.Cells.{NoCell, Added, NotAdded};

use crate::fault::Fault;
use polynomials::{cell_at, cell_count};
use records::{CellRecord, Entry, PeriodRecord};

// What is wrong where the period has no cell at a position.
fn no_cell(periods: &PeriodRecord) -> Fault
    ensures { NoCell (periods_of periods.now) result }
{
    match cell_count(periods.as_slice()) {
        Some(0) => Fault::EmptyPeriod,
        _ => Fault::ManyCells,
    }
}

// Puts the cells from a position on after the entries, one for each code, and answers the next position.
pub fn add_cells(
    entries: &mut Vec<Entry>,
    periods: &PeriodRecord,
    first: usize,
    codes: &[u16],
) -> Result<usize, Fault>
    ensures { MatchResult result (Added (periods_of periods.now) first codes.now entries.old.items entries.new.items) (NotAdded (periods_of periods.now) first codes.now) }
{
    for (i, code) in codes.iter().enumerate() {
        let Some(coordinates) = cell_at(periods.as_slice(), first + i) else {
            return Err(no_cell(periods));
        };
        entries.push(Entry::Cell(CellRecord {
            coordinates,
            code: *code,
        }))?;
    }
    Ok(first + codes.len())
}
