// A past with every kind of call, made of the calls themselves: the long-run statement speaks of something.
#![tactic(auto)]

ghost use Rattle.worked_past.specs.WorkedPast.{WorkedPast};

use fields::{ListedField, Residue};
use monomials::{Lexicographic, Monomial};
use polynomials::Term;
use rows::Line;
use subjects::PeriodicArray;
use worksheet::Worksheet;

// One cell modulo 5, worked out over three lines: a step, a run, and then each question.
pub fn worked_past()
    ensures { WorkedPast }
{
    let Ok(field) = Residue::new(5) else {
        return;
    };
    let array = PeriodicArray::unit();
    let mut lines = [Line::unused(); 3];
    let mut sheet = Worksheet::open(&array, &field, &mut lines);
    let _ = sheet.step(&array, &field, &Lexicographic);
    let _ = sheet.run(&array, &field, &Lexicographic);
    let mut line = Line::unused();
    let _ = sheet.read(0, &mut line);
    let mut codes = [0];
    let terms = [Term::new([1, 0, 0, 0], 1)];
    let _ = sheet.remainder(&array, &field, &terms, &mut codes);
    let _ = sheet.refill(&field, &[1], &Monomial::one());
    let _ = sheet.score(&array);
}
