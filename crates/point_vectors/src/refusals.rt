// What a point set refuses, and what it takes beside it.
use faults::{Refusal, SubjectFault};
use fields::{Binary, Field, ListedField, Residue};
use polynomials::Term;
use std::test::Fail;
use subjects::{PointSet, Subject};

// variables, points, coordinates lent (all of them 0), and the ground where the points are refused
const SIZES: [(usize, usize, usize, Option<u8>); 20] = [
    (0, 1, 0, Some(6)),
    (1, 1, 1, None),
    (4, 1, 4, None),
    (5, 1, 5, Some(6)),
    (1, 0, 0, Some(7)),
    (1, 64, 64, None),
    (1, 65, 65, Some(7)),
    (4, 64, 256, None),
    (4, 65, 260, Some(7)),
    (1, 1, 0, Some(9)),
    (1, 1, 2, Some(9)),
    (2, 3, 5, Some(9)),
    (2, 3, 6, None),
    (2, 3, 7, Some(9)),
    (4, 64, 255, Some(9)),
    (4, 64, 257, Some(9)),
    (0, 0, 1, Some(6)),
    (5, 65, 1, Some(6)),
    (1, 65, 1, Some(7)),
    (usize::MAX, usize::MAX, 0, Some(6)),
];

const ZEROS: [u16; 260] = [0; 260];

// The ground and the place of a refusal, if there is one.
fn refusal<T: Drop>(outcome: Result<T, SubjectFault>) -> Option<(u8, usize)> {
    let refusal = Refusal::from(outcome.err()?);
    Some((refusal.ground, refusal.place))
}

// Lends the coordinates to a new set, as two points of two coordinates.
fn lent<F: Field>(field: &F, coordinates: &[u16]) -> Option<(u8, usize)> {
    let mut set = PointSet::unit();
    refusal(set.set(field, 2, 2, coordinates))
}

#[test]
fn sizes(rt: HostRuntime) -> Result<(), Fail> {
    let field = Residue::new(5)?;
    for (variables, points, count, ground) in SIZES {
        assert!(rt; count <= 260);
        let mut set = PointSet::unit();
        let outcome = set.set(&field, variables, points, &ZEROS[0..count]);
        assert_eq!(rt; refusal(outcome), ground.map(|ground| (ground, 0)));
    }
    Ok(())
}

#[test]
fn codes(rt: HostRuntime) -> Result<(), Fail> {
    let field = Residue::new(5)?;
    assert_eq!(rt; lent(&field, &[4, 4, 4, 4]), None);
    assert_eq!(rt; lent(&field, &[5, 4, 4, 4]), Some((10, 0)));
    assert_eq!(rt; lent(&field, &[0, 4, 5, 9]), Some((10, 2)));
    assert_eq!(rt; lent(&field, &[4, 4, 4, 5]), Some((10, 3)));
    assert_eq!(rt; lent(&field, &[4, 4, 5]), Some((9, 0)));
    assert_eq!(rt; lent(&field, &[5, 4, 4, 4, 4]), Some((9, 0)));
    let field = Residue::new(65521)?;
    assert_eq!(rt; lent(&field, &[65520, 65520, 65520, 65520]), None);
    assert_eq!(rt; lent(&field, &[65520, 65521, 65520, 65520]), Some((10, 1)));
    let field = Binary::new(2)?;
    assert_eq!(rt; lent(&field, &[3, 3, 3, 3]), None);
    assert_eq!(rt; lent(&field, &[3, 3, 3, 4]), Some((10, 3)));
    Ok(())
}

// A set that refuses new points keeps those that it has.
#[test]
fn refused_points_change_nothing(rt: HostRuntime) -> Result<(), Fail> {
    let field = Residue::new(5)?;
    let mut set = PointSet::unit();
    assert_eq!(rt; refusal(set.set(&field, 2, 2, &[0, 1, 2, 3])), None);
    assert_eq!(rt; refusal(set.set(&field, 1, 3, &[1, 1, 5])), Some((10, 2)));
    assert_eq!(rt; set.variables(), 2);
    assert_eq!(rt; set.width(), 2);
    assert_eq!(rt; set.value_at(&field, &[Term::new([1, 1, 0, 0], 1)], 1), 1);
    Ok(())
}

// A set is made where its coordinates fit the sizes and the field, and else refused by its fault.
#[test]
fn made(rt: HostRuntime) -> Result<(), Fail> {
    let field = Residue::new(5)?;
    let set = PointSet::new(&field, 2, 2, &[0, 1, 2, 3])?;
    assert_eq!(rt; set.variables(), 2);
    assert_eq!(rt; set.width(), 2);
    assert_eq!(rt; set.value_at(&field, &[Term::new([1, 1, 0, 0], 1)], 1), 1);
    assert_eq!(rt;
        refusal(PointSet::new(&field, 1, 3, &[1, 1, 5])),
        Some((10, 2))
    );
    Ok(())
}
