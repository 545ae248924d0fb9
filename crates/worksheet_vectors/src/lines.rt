// The judged lines of small patterns, with combinations, images and pivots.
use crate::tables::{
    AXES, CORNERS, CUBE_BINARY, CUBE_LEXICOGRAPHIC, Judged, ONE_CELL, POWERS, SEQUENCE,
    SQUARE_ELEVEN, SQUARE_GRADED, SQUARE_LEXICOGRAPHIC, STRIP_WEIGHTED, ZEROS,
};
use fields::{Binary, Field, ListedField, Residue};
use monomials::{Graded, Lexicographic, Monomial, MonomialOrder, Weighted, Weights};
use rows::{Line, Verdict};
use std::test::Fail;
use subjects::{PeriodicArray, PointSet, Subject};
use worksheet::Worksheet;

// Whether the codes begin as expected, and are 0 after that.
fn begins(codes: &[u16; 64], expected: &[u16]) -> bool {
    codes.iter().enumerate().all(|(place, code)| *code == expected.get(place).copied().unwrap_or(0))
}

fn is_as_expected(line: &Line, expected: &Judged) -> bool {
    let monomial = Monomial {
        exponents: expected.exponents,
    };
    line.monomial == monomial
        && line.verdict == expected.verdict
        && line.pivot == expected.pivot
        && begins(&line.combination, &expected.codes)
        && begins(&line.image, &expected.image)
}

// Whether the finished sheet of the set-up has just the expected lines; the lent lines hold garbage first.
fn works_out<S: Subject, F: Field, O: MonomialOrder>(
    subject: &S,
    field: &F,
    order: &O,
    expected: &[Judged],
) -> bool {
    let garbage = Line {
        monomial: Monomial {
            exponents: [65535; 4],
        },
        verdict: Verdict::Stair,
        combination: [65535; 64],
        image: [65535; 64],
        pivot: 255,
    };
    let mut lines = [garbage; 12];
    let mut sheet = Worksheet::open(subject, field, &mut lines);
    if sheet.run(subject, field, order).is_err() {
        return false;
    }
    let summary = sheet.summary();
    if !summary.finished || summary.judged != expected.len() {
        return false;
    }
    let mut place = Line::unused();
    for (number, wanted) in expected.iter().enumerate() {
        if sheet.read(number, &mut place).is_err() || !is_as_expected(&place, wanted) {
            return false;
        }
    }
    true
}

// The same of a pattern of residues.
fn array_works_out<'a, O: MonomialOrder>(
    modulus: u16,
    periods: &'a [u16],
    cells: &'a [u16],
    order: &O,
    expected: &[Judged],
) -> Result<bool, Fail> {
    let field = Residue::new(modulus)?;
    let mut array = PeriodicArray::unit();
    array.set(&field, periods, cells)?;
    Ok(works_out(&array, &field, order, expected))
}

#[test]
fn sequence(rt: HostRuntime) -> Result<(), Fail> {
    let cells = [3, 5, 9, 6, 0, 10, 8, 4, 7, 2];
    assert!(rt; array_works_out(11, &[10], &cells, &Graded, &SEQUENCE)?);
    Ok(())
}

#[test]
fn square(rt: HostRuntime) -> Result<(), Fail> {
    let cells = [1, 0, 0, 1];
    let graded = array_works_out(2, &[2, 2], &cells, &Graded, &SQUARE_GRADED)?;
    let lexicographic = array_works_out(2, &[2, 2], &cells, &Lexicographic, &SQUARE_LEXICOGRAPHIC)?;
    let eleven = array_works_out(11, &[2, 2], &[3, 1, 10, 8], &Graded, &SQUARE_ELEVEN)?;
    assert!(rt; graded && lexicographic && eleven);
    Ok(())
}

#[test]
fn small(rt: HostRuntime) -> Result<(), Fail> {
    let zeros = array_works_out(5, &[3], &[0, 0, 0], &Graded, &ZEROS)?;
    let one_cell = array_works_out(5, &[1], &[4], &Graded, &ONE_CELL)?;
    let axes = array_works_out(7, &[2, 3], &[1, 4, 2, 0, 6, 3], &Graded, &AXES)?;
    assert!(rt; zeros && one_cell && axes);
    Ok(())
}

#[test]
fn binary(rt: HostRuntime) -> Result<(), Fail> {
    let field = Binary::new(2)?;
    let mut array = PeriodicArray::unit();
    assert!(rt; array.set(&field, &[3], &[1, 2, 3]).is_ok());
    assert!(rt; works_out(&array, &field, &Graded, &POWERS));
    Ok(())
}

// Published patterns, with the lines of another algebra system.
const CUBE: [u16; 24] = [
    1, 0, 0, 0, 0, 0, 0, 0, 1, 0, 0, 0, 0, 0, 1, 0, 0, 0, 0, 0, 0, 0, 1, 0,
];

const STRIP: [u16; 16] = [1, 0, 0, 0, 0, 0, 0, 0, 65520, 0, 0, 0, 0, 0, 0, 0];

#[test]
fn cube(rt: HostRuntime) -> Result<(), Fail> {
    let binary = Binary::new(8)?;
    let mut array = PeriodicArray::unit();
    assert!(rt; array.set(&binary, &[4, 3, 2], &CUBE).is_ok());
    let graded = works_out(&array, &binary, &Graded, &CUBE_BINARY);
    let lexicographic = array_works_out(2, &[4, 3, 2], &CUBE, &Lexicographic, &CUBE_LEXICOGRAPHIC)?;
    assert!(rt; graded && lexicographic);
    Ok(())
}

#[test]
fn strip(rt: HostRuntime) -> Result<(), Fail> {
    let order = Weighted {
        weights: Weights::new([1, 3, 0, 0])?,
        below: Lexicographic,
    };
    assert!(rt; array_works_out(65521, &[2, 8], &STRIP, &order, &STRIP_WEIGHTED)?);
    Ok(())
}

#[test]
fn points(rt: HostRuntime) -> Result<(), Fail> {
    let field = Residue::new(5)?;
    let mut corners = PointSet::unit();
    assert!(rt; corners.set(&field, 2, 3, &[0, 0, 1, 0, 0, 1]).is_ok());
    assert!(rt; works_out(&corners, &field, &Graded, &CORNERS));
    Ok(())
}
