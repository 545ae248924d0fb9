// Relations that hold on a pattern, and relations that fail.
use fields::{ListedField, Residue};
use polynomials::Term;
use std::test::Fail;
use subjects::{Finding, PeriodicArray, check as check_relation};

// Whether a claim holds on the array of these periods and cells.
fn holds<'a>(
    modulus: u16,
    periods: &'a [u16],
    cells: &'a [u16],
    terms: &[Term],
) -> Result<bool, Fail> {
    let field = Residue::new(modulus)?;
    let mut array = PeriodicArray::unit();
    array.set(&field, periods, cells)?;
    Ok(check_relation(&array, &field, terms)? == Finding::Holds)
}

// Terms in any order, and equal monomials twice.
#[test]
fn sequence(rt: HostRuntime) -> Result<(), Fail> {
    let cells = [3, 5, 9, 6, 0, 10, 8, 4, 7, 2];
    let square = Term::new([2, 0, 0, 0], 1);
    let two = Term::new([0; 4], 2);
    let eight = Term::new([1, 0, 0, 0], 8);
    let three = Term::new([1, 0, 0, 0], 3);
    let five = Term::new([1, 0, 0, 0], 5);
    assert!(rt; holds(11, &[10], &cells, &[square, eight, two])?);
    assert!(rt; holds(11, &[10], &cells, &[two, square, eight])?);
    assert!(rt; holds(11, &[10], &cells, &[three, square, two, five])?);
    assert!(rt; !holds(11, &[10], &cells, &[eight, two])?);
    assert!(rt; holds(11, &[10], &cells, &[])?);
    Ok(())
}

#[test]
fn square(rt: HostRuntime) -> Result<(), Fail> {
    let cells = [3, 1, 10, 8];
    let u = Term::new([1, 0, 0, 0], 1);
    let v = Term::new([0, 1, 0, 0], 1);
    let minus_v = Term::new([0, 1, 0, 0], 10);
    let whole = [Term::new([0, 2, 0, 0], 1), Term::new([0; 4], 10)];
    assert!(rt; holds(11, &[2, 2], &cells, &[u, v])?);
    assert!(rt; holds(11, &[2, 2], &cells, &whole)?);
    assert!(rt; !holds(11, &[2, 2], &cells, &[u, minus_v])?);
    Ok(())
}

// 65,520 is −1, so its products are the largest: (−1) · (−1) + 1 · (−1) is 0.
#[test]
fn largest_products(rt: HostRuntime) -> Result<(), Fail> {
    let cells = [65520, 65520, 65520];
    let minus_u = Term::new([1, 0, 0, 0], 65520);
    let one = Term::new([0; 4], 1);
    let minus_one = Term::new([0; 4], 65520);
    assert!(rt; holds(65521, &[3], &cells, &[minus_u, one])?);
    assert!(rt; !holds(65521, &[3], &cells, &[minus_u, minus_one])?);
    Ok(())
}

// Each axis of a pattern repeats after its period, and not before.
#[test]
fn four_axes(rt: HostRuntime) -> Result<(), Fail> {
    let cells = [
        1, 0, 2, 4, 3, 3, 4, 7, 0, 0, 5, 6, 2, 2, 9, 10, 1, 8, 8, 3, 0, 5, 6, 7,
    ];
    let minus_one = Term::new([0; 4], 10);
    let periods = [2, 3, 2, 2];
    let axes = [
        ([2, 0, 0, 0], [1, 0, 0, 0]),
        ([0, 3, 0, 0], [0, 1, 0, 0]),
        ([0, 0, 2, 0], [0, 0, 1, 0]),
        ([0, 0, 0, 2], [0, 0, 0, 1]),
    ];
    for (whole, part) in axes {
        let repeats = [Term::new(whole, 1), minus_one];
        let moves = [Term::new(part, 1), minus_one];
        assert!(rt; holds(11, &periods, &cells, &repeats)?);
        assert!(rt; !holds(11, &periods, &cells, &moves)?);
    }
    Ok(())
}

// 4,095 is 15 by 16, so u^4095 moves one cell back.
#[test]
fn largest_exponent(rt: HostRuntime) -> Result<(), Fail> {
    let cells = [0, 1, 2, 3, 4, 5, 6, 7, 8, 9, 10, 11, 12, 13, 14, 15];
    let back = [Term::new([4095, 0, 0, 0], 1), Term::new([15, 0, 0, 0], 16)];
    assert!(rt; holds(17, &[16], &cells, &back)?);
    Ok(())
}
