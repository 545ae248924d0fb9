// The exported calls. Each writes to the lent numbers, and answers how many lines, codes or remainders it wrote: 0 where anything is refused.
ghost use Rattle.worksheet.specs.Sheets.{judged};
ghost use Rattle.linked.specs.Answers.{Lists, ContinuesEach, LeavesEach};
ghost use Rattle.linked.specs.Works.{Fields};

use crate::answering::{Lines, Refills, Remainders};
use crate::dispatch::under_field;
use crate::pattern::Pattern;

// The lines of the pattern, 69 numbers each: four exponents, 1 for a stair and 0 for a relation, 64 codes.
#[unsafe(no_mangle)]
pub extern "C" fn linked_lines(
    kind: u16,
    size: u16,
    order: u16,
    periods: &[u16],
    cells: &[u16],
    out: &mut [u16],
) -> usize
    ensures { Fields kind size order periods.now cells.now (λ _ _ s. Lists (judged s)) out.old result out.new }
{
    let pattern = Pattern {
        kind,
        size,
        order,
        periods,
        cells,
    };
    under_field(&pattern, &Lines, out).unwrap_or(0)
}

// From codes on the staircase, the code at each monomial, four exponents each.
#[unsafe(no_mangle)]
pub extern "C" fn linked_refills(
    kind: u16,
    size: u16,
    order: u16,
    periods: &[u16],
    cells: &[u16],
    codes: &[u16],
    exponents: &[u16],
    out: &mut [u16],
) -> usize
    ensures { Fields kind size order periods.now cells.now (λ _ A. ContinuesEach A codes.now exponents.now) out.old result out.new }
{
    let pattern = Pattern {
        kind,
        size,
        order,
        periods,
        cells,
    };
    under_field(&pattern, &Refills { codes, exponents }, out).unwrap_or(0)
}

// The remainder of each polynomial of 64 terms, four exponents and a code each: one code for each stair, each
// remainder 64 numbers after the one before.
#[unsafe(no_mangle)]
pub extern "C" fn linked_remainders(
    kind: u16,
    size: u16,
    order: u16,
    periods: &[u16],
    cells: &[u16],
    polynomials: &[u16],
    out: &mut [u16],
) -> usize
    ensures { Fields kind size order periods.now cells.now (λ S A. LeavesEach S A polynomials.now) out.old result out.new }
{
    let pattern = Pattern {
        kind,
        size,
        order,
        periods,
        cells,
    };
    under_field(&pattern, &Remainders { polynomials }, out).unwrap_or(0)
}
