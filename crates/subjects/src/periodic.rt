// A periodic array: periods and cells are lent, and only read.
ghost use Rattle.std.specs.Prelude.{◌≡◌, ℕ, ◌+◌, ◌%◌, ◌<◌, ◌≤◌, List, [], ◌∷◌, length, MatchResult};
ghost use Rattle.monomials.specs.Monomials.{mono, times};
ghost use Rattle.polynomials.specs.Arrays.{array_meaning, infinite_array, cells_of, cell_at, position_of, wrapped, AnnihilatorsAreValid};
ghost use Rattle.subjects.specs.ArrayGrounds.{ArrayAdmitted, ArrayRefused, PeriodsAdmitted, PeriodsRefused, Widened};
ghost use Rattle.polynomials.proofs.Arrays.{array_laws};

use crate::subject::{MOST_VARIABLES, Subject};
use faults::SubjectFault;
use fields::{Field, first_outside};
use monomials::Monomial;

// The most cells of a period.
const MOST_CELLS: usize = 64;

#[derive(Clone, Copy)]
pub struct PeriodicArray<'a> {
    periods: &'a [u16],
    cells: &'a [u16],
    width: usize,
    ghost some: { 1 ≤ length periods.now },
    ghost few: { length periods.now ≤ 4 },
    ghost wide: { width ≡ cells_of periods.now },
    ghost inhabited: { 0 < cells_of periods.now },
    ghost narrow: { cells_of periods.now ≤ 64 },
    ghost full: { length cells.now ≡ cells_of periods.now },
}

// The product with one period more, unless it is 0 or above the most cells.
fn widened(width: usize, period: u16) -> Option<usize>
    requires { width ≤ 64 }
    ensures { Widened width period result }
{
    let wider = width * usize::from(period);
    if wider == 0 || wider > MOST_CELLS {
        return None;
    }
    Some(wider)
}

// The number of cells of the period, 1 to 64.
pub fn count_cells(periods: &[u16]) -> Result<usize, SubjectFault>
    ensures counted { MatchResult result (λ width. PeriodsAdmitted periods.now × (width ≡ cells_of periods.now) × (0 < width) × (width ≤ 64)) (λ e. (order : ℕ) (cells : List ℕ) → ArrayRefused order periods.now cells e) }
    ensures refused { MatchResult result (λ _. PeriodsAdmitted periods.now) (PeriodsRefused periods.now) }
{
    if periods.is_empty() || periods.len() > MOST_VARIABLES {
        return Err(SubjectFault::Variables);
    }
    let mut width = 1;
    for (axis, period) in periods.iter().enumerate() {
        let Some(wider) = widened(width, *period) else {
            return Err(SubjectFault::Period(axis));
        };
        width = wider;
    }
    Ok(width)
}

// Where along an axis the exponent moves the next coordinate of a position: the remainder of their sum by the period.
fn moved_along(rest: usize, exponent: u16, period: usize) -> usize
    requires { (0 < period) × (period ≤ 64) }
    ensures { result ≡ (rest % period + exponent) % period }
{
    (rest % period + usize::from(exponent)) % period
}

impl<'a> PeriodicArray<'a> {
    // The array of one cell, with code 1.
    pub fn unit() -> PeriodicArray<'a>
        ensures { (result.periods.now ≡ 1 ∷ []) × (result.cells.now ≡ 1 ∷ []) }
    {
        PeriodicArray {
            periods: &[1],
            cells: &[1],
            width: 1,
        }
    }

    // The array with these periods and cells; refused where they do not fit each other or the field.
    pub fn new<F: Field>(
        field: &F,
        periods: &'a [u16],
        cells: &'a [u16],
    ) -> Result<PeriodicArray<'a>, SubjectFault>
        ensures { MatchResult result (λ array. ArrayAdmitted (F.Field.arithmetic field.now).order periods.now cells.now × (array.periods.now ≡ periods.now) × (array.cells.now ≡ cells.now)) (ArrayRefused (F.Field.arithmetic field.now).order periods.now cells.now) }
    {
        let width = count_cells(periods)?;
        if cells.len() != width {
            return Err(SubjectFault::Count);
        }
        if let Some(cell) = first_outside(field, cells) {
            return Err(SubjectFault::Code(cell));
        }
        Ok(PeriodicArray {
            periods,
            cells,
            width,
        })
    }

    // Makes this the array with these periods and cells. Where they do not fit each other or the field, they are refused,
    // and the array stays as it was.
    pub fn set<F: Field>(
        &mut self,
        field: &F,
        periods: &'a [u16],
        cells: &'a [u16],
    ) -> Result<(), SubjectFault>
        ensures answer { MatchResult result (λ _. ArrayAdmitted (F.Field.arithmetic field.now).order periods.now cells.now) (ArrayRefused (F.Field.arithmetic field.now).order periods.now cells.now) }
        ensures after { MatchResult result (λ _. (self.new.periods.now ≡ periods.now) × (self.new.cells.now ≡ cells.now)) (λ _. self.new ≡ self.old) }
    {
        *self = PeriodicArray::new(field, periods, cells)?;
        Ok(())
    }

    // The position of the cell that the cell at a position falls on when the monomial's exponents are added to its coordinates.
    fn behind(&self, monomial: &Monomial, position: usize) -> usize
        requires { position < self.now.width }
        ensures is { result ≡ position_of self.now.periods.now (wrapped self.now.periods.now (times (cell_at self.now.periods.now position) (mono monomial.now.exponents))) }
        ensures inside { result < length self.now.cells.now }
    {
        let mut place = 0;
        let mut scale = 1;
        let mut rest = position;
        for (axis, period) in self.periods.iter().enumerate() {
            let period = usize::from(*period);
            place += scale * moved_along(rest, monomial.exponents[axis], period);
            scale *= period;
            rest /= period;
        }
        place
    }

    // The code of the infinite array at coordinates of any size that fits.
    // The annihilators of the array are exactly the polynomials that are valid for the infinite array.
    pub fn code_at<F: Field>(&self, field: &F, coordinates: &Monomial) -> u16
        ensures value { result ≡ infinite_array self.now.periods.now self.now.cells.now (F.Field.arithmetic field.now) (mono coordinates.now.exponents) }
        ensures valid { AnnihilatorsAreValid self.now.periods.now self.now.cells.now }
    {
        self.image(field, coordinates, 0)
    }
}

impl<'a> Subject for PeriodicArray<'a> {
    ghost meaning = { λ array. array_meaning array.periods.now array.cells.now };

    ghost laws = { λ array. array_laws array.periods.now array.cells.now array.few array.some array.narrow };

    fn variables(&self) -> usize {
        self.periods.len()
    }

    fn width(&self) -> usize {
        self.width
    }

    // A code not below the field's order counts as its remainder.
    fn image<F: Field>(&self, field: &F, monomial: &Monomial, position: usize) -> u16 {
        if position < self.width {
            field.sum(self.cells[self.behind(monomial, position)], 0)
        } else {
            0
        }
    }
}
