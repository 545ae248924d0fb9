// Examples of the residues.
use crate::both::{self, has_no_inverse, operates, refuses};
use fields::{Field, ListedField, Residue};
use std::test::Fail;

// the moduli that are taken, but the largest
const SMALL_MODULI: [u16; 14] = [2, 3, 5, 7, 11, 13, 17, 19, 23, 29, 31, 37, 251, 257];

const LARGEST: u16 = 65521;

// the numbers next to them, and some others
const REFUSED: [u16; 28] = [
    0, 1, 4, 6, 8, 9, 10, 12, 14, 15, 16, 18, 20, 21, 22, 24, 28, 30, 32, 36, 38, 250, 252, 256,
    258, 65520, 65522, 65535,
];

// modulus, a, b, a + b, −a, a × b; also of numbers at or above the modulus
const OPERATIONS: [(u16, u16, u16, u16, u16, u16); 15] = [
    (2, 1, 1, 0, 1, 1),
    (2, 65535, 65535, 0, 1, 1),
    (3, 2, 2, 1, 1, 1),
    (5, 4, 4, 3, 1, 1),
    (5, 7, 9, 1, 3, 3),
    (37, 36, 36, 35, 1, 1),
    (251, 250, 250, 249, 1, 1),
    (251, 252, 500, 250, 250, 249),
    (257, 256, 256, 255, 1, 1),
    (257, 65535, 65535, 0, 0, 0),
    (65521, 65520, 65520, 65519, 1, 1),
    (65521, 65520, 1, 0, 1, 65520),
    (65521, 65521, 65522, 1, 0, 0),
    (65521, 65535, 65535, 28, 65507, 196),
    (65521, 32761, 2, 32763, 32760, 1),
];

// modulus, a, inverse of a
const INVERSES: [(u16, u16, u16); 15] = [
    (2, 1, 1),
    (3, 2, 2),
    (5, 3, 2),
    (7, 3, 5),
    (37, 36, 36),
    (251, 2, 126),
    (251, 250, 250),
    (257, 3, 86),
    (257, 256, 256),
    (65521, 2, 32761),
    (65521, 3, 43681),
    (65521, 17, 42396),
    (65521, 32760, 65519),
    (65521, 65520, 65520),
    (65521, 65522, 1),
];

// numbers that count as zero: modulus, number
const ZEROS: [(u16, u16); 6] = [
    (2, 0),
    (2, 65534),
    (5, 0),
    (5, 10),
    (65521, 0),
    (65521, 65521),
];

#[test]
fn takes_the_listed_moduli(rt: HostRuntime) -> Result<(), Fail> {
    assert_eq!(rt; <Residue as Field>::LARGEST, 65521);
    assert_eq!(rt; Residue::new(LARGEST)?.order(), 65521);
    for modulus in SMALL_MODULI {
        assert_eq!(rt; Residue::new(modulus)?.order(), u32::from(modulus));
    }
    Ok(())
}

#[test]
fn refuses_other_moduli(rt: HostRuntime) -> Result<(), Fail> {
    refuses::<Residue, _>(&rt, &REFUSED)
}

#[test]
fn adds_negates_and_multiplies(rt: HostRuntime) -> Result<(), Fail> {
    operates::<Residue, _>(&rt, &OPERATIONS)
}

#[test]
fn inverts(rt: HostRuntime) -> Result<(), Fail> {
    both::inverts::<Residue, _>(&rt, &INVERSES)
}

#[test]
fn inverts_every_small_residue(rt: HostRuntime) -> Result<(), Fail> {
    for modulus in SMALL_MODULI {
        let field = Residue::new(modulus)?;
        for a in 1..modulus {
            let inverse = field.inverse(a).ok_or("no inverse")?;
            assert!(rt; inverse < modulus);
            assert_eq!(rt; u32::from(a) * u32::from(inverse) % u32::from(modulus), 1);
        }
    }
    Ok(())
}

#[test]
fn zero_has_no_inverse(rt: HostRuntime) -> Result<(), Fail> {
    has_no_inverse::<Residue, _>(&rt, &ZEROS)
}
