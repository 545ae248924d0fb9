// Examples of values at points.
use fields::{Binary, ListedField, Residue};
use polynomials::Term;
use std::test::Fail;
use subjects::{Finding, PointSet, Subject, check};

// the points (0, 0), (1, 0) and (0, 1)
const CORNERS: [u16; 6] = [0, 0, 1, 0, 0, 1];

// the codes from 0 to 63
const SMALL_CODES: [u16; 64] = [
    0, 1, 2, 3, 4, 5, 6, 7, 8, 9, 10, 11, 12, 13, 14, 15, 16, 17, 18, 19, 20, 21, 22, 23, 24, 25,
    26, 27, 28, 29, 30, 31, 32, 33, 34, 35, 36, 37, 38, 39, 40, 41, 42, 43, 44, 45, 46, 47, 48, 49,
    50, 51, 52, 53, 54, 55, 56, 57, 58, 59, 60, 61, 62, 63,
];

#[test]
fn corners_by_modulus_5(rt: HostRuntime) -> Result<(), Fail> {
    let field = Residue::new(5)?;
    let mut set = PointSet::unit();
    set.set(&field, 2, 3, &CORNERS)?;
    let v_squared = [Term::new([0, 2, 0, 0], 1), Term::new([0, 1, 0, 0], 4)];
    let product = [Term::new([1, 1, 0, 0], 1)];
    let u_squared = [Term::new([2, 0, 0, 0], 1), Term::new([1, 0, 0, 0], 4)];
    let sum = [Term::new([1, 0, 0, 0], 1), Term::new([0, 1, 0, 0], 1)];
    assert_eq!(rt; check(&set, &field, &v_squared)?, Finding::Holds);
    assert_eq!(rt; check(&set, &field, &product)?, Finding::Holds);
    assert_eq!(rt; check(&set, &field, &u_squared)?, Finding::Holds);
    assert_ne!(rt; check(&set, &field, &sum)?, Finding::Holds);
    assert_eq!(rt; set.value_at(&field, &sum, 0), 0);
    assert_eq!(rt; set.value_at(&field, &sum, 1), 1);
    assert_eq!(rt; set.value_at(&field, &sum, 2), 1);
    assert_eq!(rt; set.value_at(&field, &sum, 3), 0);
    Ok(())
}

// At 0, the power of exponent 0 is 1, and that of exponent 5 is 0.
#[test]
fn powers_of_zero(rt: HostRuntime) -> Result<(), Fail> {
    let field = Residue::new(5)?;
    let mut set = PointSet::unit();
    set.set(&field, 1, 1, &[0])?;
    assert_eq!(rt; set.value_at(&field, &[Term::new([0, 0, 0, 0], 1)], 0), 1);
    assert_eq!(rt; set.value_at(&field, &[Term::new([5, 0, 0, 0], 1)], 0), 0);
    assert_eq!(rt; set.value_at(&field, &[], 0), 0);
    let constant = [Term::new([0, 0, 0, 0], 3), Term::new([5, 0, 0, 0], 4)];
    assert_eq!(rt; set.value_at(&field, &constant, 0), 3);
    Ok(())
}

// By Fermat the power at 65,535 is that at 255 for modulus 257, and that at 15 for modulus 65521.
#[test]
fn powers_at_the_largest_exponent(rt: HostRuntime) -> Result<(), Fail> {
    let field = Residue::new(257)?;
    let mut set = PointSet::unit();
    set.set(&field, 2, 3, &[3, 5, 256, 0, 0, 2])?;
    let largest = [Term::new([65535, 65535, 0, 0], 1)];
    assert_eq!(rt; set.value_at(&field, &largest, 0), 120);
    assert_eq!(rt; set.value_at(&field, &largest, 1), 0);
    let two = [
        Term::new([65535, 1, 0, 0], 3),
        Term::new([0, 65535, 0, 0], 200),
    ];
    assert_eq!(rt; set.value_at(&field, &two, 0), 45);
    assert_eq!(rt; set.value_at(&field, &two, 2), 100);
    let field = Residue::new(65521)?;
    set.set(&field, 4, 2, &[3, 17, 65520, 2, 0, 1, 2, 3])?;
    let three = [
        Term::new([65535, 1, 3, 4], 5),
        Term::new([0, 65535, 0, 0], 1),
        Term::new([0, 0, 0, 0], 65520),
    ];
    assert_eq!(rt; set.value_at(&field, &three, 0), 12948);
    assert_eq!(rt; set.value_at(&field, &three, 1), 0);
    Ok(())
}

#[test]
fn points_of_degree_8(rt: HostRuntime) -> Result<(), Fail> {
    let field = Binary::new(8)?;
    let mut set = PointSet::unit();
    set.set(&field, 2, 3, &[0x57, 0x83, 0x53, 0xCA, 0x01, 0xFF])?;
    let product = [Term::new([1, 1, 0, 0], 1)];
    assert_eq!(rt; set.value_at(&field, &product, 0), 0xC1);
    assert_eq!(rt; set.value_at(&field, &product, 1), 0x01);
    assert_eq!(rt; set.value_at(&field, &product, 2), 0xFF);
    let three = [
        Term::new([1, 0, 0, 0], 0x02),
        Term::new([0, 3, 0, 0], 0x80),
        Term::new([0, 0, 0, 0], 0x01),
    ];
    assert_eq!(rt; set.value_at(&field, &three, 0), 0x30);
    assert_eq!(rt; set.value_at(&field, &three, 1), 0x0D);
    assert_eq!(rt; set.value_at(&field, &three, 2), 0xA6);
    Ok(())
}

// The product of u + c for the codes c from 0 to 63, whose exponents are powers of two.
#[test]
fn sixty_four_points_of_degree_8(rt: HostRuntime) -> Result<(), Fail> {
    let field = Binary::new(8)?;
    let mut set = PointSet::unit();
    set.set(&field, 1, 64, &SMALL_CODES)?;
    let vanishing = [
        Term::new([64, 0, 0, 0], 0x01),
        Term::new([32, 0, 0, 0], 0x8B),
        Term::new([16, 0, 0, 0], 0x39),
        Term::new([8, 0, 0, 0], 0x6C),
        Term::new([4, 0, 0, 0], 0xBC),
        Term::new([2, 0, 0, 0], 0x50),
        Term::new([1, 0, 0, 0], 0x33),
    ];
    assert_eq!(rt; check(&set, &field, &vanishing)?, Finding::Holds);
    set.set(&field, 1, 1, &[64])?;
    assert_eq!(rt; set.value_at(&field, &vanishing, 0), 0x24);
    Ok(())
}

// Repeated points are taken. A coordinate that is not below the order of another field counts as its remainder.
#[test]
fn repeated_points_and_another_field(rt: HostRuntime) -> Result<(), Fail> {
    let field = Residue::new(257)?;
    let mut set = PointSet::unit();
    set.set(&field, 2, 2, &[7, 9, 7, 9])?;
    assert_eq!(rt; set.variables(), 2);
    assert_eq!(rt; set.width(), 2);
    let product = [Term::new([1, 1, 0, 0], 1)];
    assert_eq!(rt; set.value_at(&field, &product, 0), 63);
    assert_eq!(rt; set.value_at(&field, &product, 1), 63);
    assert_eq!(rt; set.value_at(&Residue::new(5)?, &product, 1), 3);
    Ok(())
}
