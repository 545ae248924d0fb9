// Sheets with wrong calls between the right ones, and sheets of 0, 1 and exactly enough lines.
use fields::{ListedField, Residue};
use monomials::{Graded, Monomial};
use polynomials::Term;
use rows::Line;
use std::test::Fail;
use subjects::PeriodicArray;
use worksheet::{Ending, Ran, Worksheet};

const CELLS: [u16; 10] = [3, 5, 9, 6, 0, 10, 8, 4, 7, 2];

// Wrong calls change nothing: the sheet ends as it would have without them.
#[test]
fn wrong_calls_between(rt: HostRuntime) -> Result<(), Fail> {
    let field = Residue::new(11)?;
    let other = Residue::new(7)?;
    let mut array = PeriodicArray::unit();
    assert!(rt; array.set(&field, &[10], &CELLS).is_ok());
    let mut lines = [Line::unused(); 3];
    let mut sheet = Worksheet::open(&array, &field, &mut lines);
    let u = Monomial {
        exponents: [1, 0, 0, 0],
    };
    let mut place = Line::unused();
    let mut codes = [7, 7];
    let early = sheet.refill(&field, &[], &u).is_err();
    let first = sheet.step(&array, &field, &Graded).is_ok();
    let past = sheet.read(1, &mut place).is_err();
    let foreign = sheet.step(&array, &other, &Graded).is_err();
    let unfinished = sheet.remainder(&array, &field, &[], &mut codes).is_err();
    assert!(rt; early && first && past && foreign && unfinished && codes[0] == 7);
    let run = sheet.run(&array, &field, &Graded).is_ok();
    let summary = sheet.summary();
    assert!(rt; run && summary.judged == 3 && summary.stairs == 2 && summary.finished);
    Ok(())
}

// u² leaves 3u + 9, and the codes 0 and 1 are refilled to 3 at u².
#[test]
fn remainder_and_refill(rt: HostRuntime) -> Result<(), Fail> {
    let field = Residue::new(11)?;
    let mut array = PeriodicArray::unit();
    assert!(rt; array.set(&field, &[10], &CELLS).is_ok());
    let mut lines = [Line::unused(); 3];
    let mut sheet = Worksheet::open(&array, &field, &mut lines);
    assert!(rt; sheet.run(&array, &field, &Graded).is_ok());
    let square = Monomial {
        exponents: [2, 0, 0, 0],
    };
    let terms = [Term {
        monomial: square,
        code: 1,
    }];
    let mut codes = [0; 2];
    let left = sheet.remainder(&array, &field, &terms, &mut codes).is_ok();
    assert!(rt; left && codes[0] == 9 && codes[1] == 3);
    assert_eq!(rt; sheet.refill(&field, &[0, 1], &square)?, 3);
    Ok(())
}

// What a run over so many lent lines answers.
fn run_over(lines: &mut [Line]) -> Result<Ran, Fail> {
    let field = Residue::new(11)?;
    let array = PeriodicArray::new(&field, &[10], &CELLS)?;
    let mut sheet = Worksheet::open(&array, &field, lines);
    Ok(sheet.run(&array, &field, &Graded)?)
}

#[test]
fn few_lines(rt: HostRuntime) -> Result<(), Fail> {
    let runs = [
        (run_over(&mut [])?, 0, Ending::Full),
        (run_over(&mut [Line::unused(); 1])?, 1, Ending::Full),
        (run_over(&mut [Line::unused(); 3])?, 3, Ending::Finished),
        (run_over(&mut [Line::unused(); 4])?, 3, Ending::Finished),
    ];
    for (ran, judged, ending) in runs {
        assert_eq!(rt; ran.judged, judged);
        assert_eq!(rt; ran.ending, ending);
    }
    Ok(())
}
