// Examples of powers.
use fields::{Binary, ListedField, Residue, power};
use std::test::Fail;

// modulus, base, exponent, power. The powers at 65,535 are by Fermat: a^(p − 1) is 1 unless p divides a.
// Modulus 257: 65535 leaves 255, so the power is the inverse of the base. Modulus 65521: it leaves 15. Modulus 5: 3. Modulus 31: 15.
const RESIDUE_POWERS: [(u16, u16, u16, u16); 24] = [
    (2, 0, 0, 1),
    (2, 1, 65535, 1),
    (5, 0, 0, 1),
    (5, 0, 5, 0),
    (5, 5, 0, 1),
    (5, 5, 5, 0),
    (5, 2, 1, 2),
    (5, 7, 1, 2),
    (5, 2, 2, 4),
    (5, 2, 3, 3),
    (5, 2, 65535, 3),
    (31, 3, 65535, 30),
    (257, 0, 65535, 0),
    (257, 2, 65535, 129),
    (257, 3, 65535, 86),
    (257, 3, 65534, 200),
    (257, 256, 65535, 256),
    (257, 256, 65534, 1),
    (65521, 3, 15, 65329),
    (65521, 3, 65535, 65329),
    (65521, 17, 65535, 13913),
    (65521, 65520, 65535, 65520),
    (65521, 65524, 65535, 65329),
    (65521, 3, 65520, 1),
];

// base, exponent, power, for degree 8: a^255 is 1 unless a is 0, and 65535 is 257 × 255
const DEGREE_8_POWERS: [(u16, u16, u16); 11] = [
    (0, 0, 1),
    (0, 5, 0),
    (0, 65535, 0),
    (0x03, 2, 0x05),
    (0x03, 4, 0x11),
    (0x03, 8, 0x1A),
    (0x02, 8, 0x1B),
    (0x57, 13, 0xF6),
    (0x57, 65535, 1),
    (0x53, 65534, 0xCA),
    (0x103, 1, 0x03),
];

#[test]
fn powers_of_residues(rt: HostRuntime) -> Result<(), Fail> {
    for (modulus, base, exponent, expected) in RESIDUE_POWERS {
        let field = Residue::new(modulus)?;
        assert_eq!(rt; power(&field, base, exponent), expected);
    }
    Ok(())
}

#[test]
fn powers_of_binary_codes(rt: HostRuntime) -> Result<(), Fail> {
    let field = Binary::new(8)?;
    for (base, exponent, expected) in DEGREE_8_POWERS {
        assert_eq!(rt; power(&field, base, exponent), expected);
    }
    Ok(())
}
