// The cells of a file: each cell of the period has one record, inside the period.
ghost use Rattle.std.specs.Prelude.{◌≡◌, ℕ, ◌<◌, ◌≤◌, length, Decides, MatchOption, MatchResult};
ghost use Rattle.faults.specs.Places.{Searched, NoneAt};
ghost use Rattle.faults.specs.declared.file.FileFault.TheVariants.{Cell};
ghost use Rattle.monomials.specs.Monomials.{mono};
ghost use Rattle.polynomials.specs.Arrays.{cells_of, cell_at};
ghost use Rattle.patterns.specs.Cells.{AtCell, OfCell, code_of, Misplaced, CellFault, CellMissing, Gathered, CellsRefused};

use crate::refusing::fault_at;
use faults::{FileFault, RecordFault};
use monomials::Monomial;
use polynomials::{cell_at, is_inside};
use records::Entry;

// The entries of a file under its periods, whose cells are as many as the width says.
#[derive(Clone, Copy)]
pub(crate) struct Filling<'a> {
    pub(crate) periods: &'a [u16],
    pub(crate) entries: &'a [Entry],
    pub(crate) width: usize,
    ghost axes: { length periods.now ≤ 4 },
    ghost cells: { width ≡ cells_of periods.now },
    ghost few: { width ≤ 64 },
}

// Whether an entry is of the cell with these coordinates.
fn is_at(entry: &Entry, coordinates: &Monomial) -> bool
    ensures { Decides result (AtCell (mono coordinates.now.exponents) entry.now) }
{
    match *entry {
        Entry::Cell(cell) => cell.coordinates.is_same(*coordinates),
        _ => false,
    }
}

// The first record of a cell.
fn find_cell(entries: &[Entry], coordinates: &Monomial) -> Option<usize>
    ensures { Searched (OfCell entries.now (mono coordinates.now.exponents)) result }
{
    entries.iter().position(|entry| is_at(entry, coordinates))
}

// Whether a record before the place is of the cell.
fn comes_before(entries: &[Entry], coordinates: &Monomial, place: usize) -> bool
    ensures { Decides result ((j : ℕ) × (j < place) × OfCell entries.now (mono coordinates.now.exponents) j) }
{
    entries
        .iter()
        .take(place)
        .any(|before| is_at(before, coordinates))
}

// The code that an entry gives its cell; asked of cells alone, and 0 of others.
fn code(entry: &Entry) -> u16
    ensures { result ≡ code_of entry.now }
{
    match *entry {
        Entry::Cell(cell) => cell.code,
        _ => 0,
    }
}

impl Filling<'_> {
    // Whether an entry at the place is a cell outside the period, or its cell's second.
    fn is_misplaced(&self, place: usize, entry: &Entry) -> bool
        ensures { Decides result (Misplaced self.now.periods.now self.now.entries.now place entry.now) }
    {
        match *entry {
            Entry::Cell(cell) => {
                !is_inside(self.periods, &cell.coordinates)
                    || comes_before(self.entries, &cell.coordinates, place)
            }
            _ => false,
        }
    }

    // The first record that is misplaced.
    fn first_misplaced(&self) -> Option<usize>
        ensures { Searched (CellFault self.now.periods.now self.now.entries.now) result }
    {
        self.entries
            .iter()
            .enumerate()
            .position(|(place, entry)| self.is_misplaced(place, entry))
    }

    // The first record of the cell at a position.
    pub(crate) fn record_of_cell(&self, position: usize) -> Option<usize>
        requires { position < self.now.width }
        ensures { Searched (OfCell self.now.entries.now (cell_at self.now.periods.now position)) result }
    {
        let coordinates = cell_at(self.periods, position)?;
        find_cell(self.entries, &coordinates)
    }

    // The codes of the cells, in cell order, and 0 after them; none where a cell has no record.
    fn gather(&self) -> Option<[u16; 64]>
        ensures { MatchOption result (CellMissing self.now.periods.now self.now.entries.now) (Gathered self.now.periods.now self.now.entries.now self.now.width) }
    {
        let mut cells = [0; 64];
        // by index, up to the width: after a loop over `iter_mut` with `take` no code that was written is known (`returns`)
        for position in 0..self.width {
            let place = self.record_of_cell(position)?;
            cells[position] = code(&self.entries[place]);
        }
        Some(cells)
    }

    // The codes of the cells; refused where a record is misplaced, or else a cell has none.
    pub(crate) fn collect(&self) -> Result<[u16; 64], RecordFault>
        ensures { MatchResult result (λ cells. NoneAt (CellFault self.now.periods.now self.now.entries.now) × Gathered self.now.periods.now self.now.entries.now self.now.width cells) (λ e. (e.fault ≡ Cell) × CellsRefused self.now.periods.now self.now.entries.now e.«record») }
    {
        if let Some(place) = self.first_misplaced() {
            return Err(fault_at(place, FileFault::Cell));
        }
        self.gather()
            .ok_or(fault_at(self.entries.len(), FileFault::Cell))
    }
}
