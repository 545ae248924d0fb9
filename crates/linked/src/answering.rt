// What is answered of a finished sheet.
ghost use Rattle.std.specs.Prelude.{◌≡◌, ℕ, ◌+◌, ◌<◌, ◌≤◌, min, length, slice_index, unwrap_or};
ghost use Rattle.worksheet.specs.Sheets.{judged};
ghost use Rattle.worksheet.specs.Questions.{stairs_in};
ghost use Rattle.worksheet.specs.Views.{sheet as sheet_of};
ghost use Rattle.linked.specs.Numbers.{SameFrom};
ghost use Rattle.linked.specs.Answers.{Lists, ContinuesEach, LeavesEach, RemainderAt};

use crate::numbers::{monomial_at, terms_from};
use crate::question::Question;
use crate::writing::{LINE_NUMBERS, write_lines};
use faults::WorksheetFault;
use fields::Field;
use polynomials::Term;
use subjects::Subject;
use worksheet::Worksheet;

// How many numbers a polynomial of 64 terms takes.
const POLYNOMIAL_NUMBERS: usize = 320;

// All lines.
#[derive(Clone, Copy)]
pub(crate) struct Lines;

// From codes on the staircase, the code at each monomial of four exponents.
#[derive(Clone, Copy)]
pub(crate) struct Refills<'a> {
    pub(crate) codes: &'a [u16],
    pub(crate) exponents: &'a [u16],
}

// The remainder of each polynomial of 64 terms.
#[derive(Clone, Copy)]
pub(crate) struct Remainders<'a> {
    pub(crate) polynomials: &'a [u16],
}

// How many codes a remainder takes: one for each stair, at most 64.
fn places(sheet: &Worksheet) -> usize
    ensures { result ≡ min (stairs_in (sheet_of sheet.now)) 64 }
{
    sheet.summary().stairs.min(64)
}

// Writes the remainder of a polynomial from a place on, one code for each stair.
// Seven parameters: they travel together in this one call only.
fn write_remainder<S: Subject, F: Field>(
    sheet: &Worksheet,
    subject: &S,
    field: &F,
    terms: &[Term],
    stairs: usize,
    out: &mut [u16],
    start: usize,
) -> Result<(), WorksheetFault>
    requires { start + stairs ≤ length out.old }
    ensures is { RemainderAt (S.Subject.meaning subject.now) (F.Field.arithmetic field.now) terms.now (sheet_of sheet.now) stairs start result out.new }
    ensures front { (k : ℕ) → k < start → slice_index out.new k ≡ slice_index out.old k }
    ensures rest { SameFrom (start + stairs) out.old out.new }
{
    sheet.remainder(subject, field, terms, &mut out[start..start + stairs])
}

impl Question for Lines {
    ghost answers = { λ _ _ _ s. Lists (judged s) };

    fn answer<S: Subject, F: Field>(
        &self,
        sheet: &Worksheet,
        _subject: &S,
        _field: &F,
        out: &mut [u16],
    ) -> Option<usize> {
        let judged = sheet.summary().judged;
        if judged > out.len() / LINE_NUMBERS {
            return None;
        }
        write_lines(sheet, judged, out);
        Some(judged)
    }
}

impl Question for Refills<'_> {
    ghost answers = { λ q _ A. ContinuesEach A q.codes.now q.exponents.now };

    fn answer<S: Subject, F: Field>(
        &self,
        sheet: &Worksheet,
        _subject: &S,
        field: &F,
        out: &mut [u16],
    ) -> Option<usize> {
        let count = self.exponents.len() / 4;
        if count > out.len() {
            return None;
        }
        // by number, which names the monomial that is asked and the code that is written
        for number in 0..count {
            let monomial = monomial_at(self.exponents, 4 * number);
            match sheet.refill(field, self.codes, &monomial) {
                Ok(code) => out[number] = code,
                Err(_fault) => return None,
            }
        }
        Some(count)
    }
}

impl Question for Remainders<'_> {
    ghost answers = { λ q S A. LeavesEach S A q.polynomials.now };

    fn answer<S: Subject, F: Field>(
        &self,
        sheet: &Worksheet,
        subject: &S,
        field: &F,
        out: &mut [u16],
    ) -> Option<usize> {
        let count = self.polynomials.len() / POLYNOMIAL_NUMBERS;
        let stairs = places(sheet);
        if count > out.len() / 64 {
            return None;
        }
        for number in 0..count {
            let terms = terms_from(self.polynomials, POLYNOMIAL_NUMBERS * number);
            let start = 64 * number;
            if let Err(_fault) = write_remainder(
                sheet, subject, field, &terms, stairs, out, start,
            ) {
                return None;
            }
        }
        Some(count)
    }
}
