// Images of monomials, and codes of the infinite array.
use fields::{Field, ListedField, Residue};
use monomials::Monomial;
use std::test::Fail;
use subjects::{PeriodicArray, Subject};

// the cell at k is 7k² + 3k + 5 by 11
const FOUR_AXES: [u16; 4] = [2, 3, 2, 2];

const FOUR_AXES_CELLS: [u16; 24] = [
    5, 4, 6, 0, 8, 8, 0, 6, 4, 5, 9, 5, 4, 6, 0, 8, 8, 0, 6, 4, 5, 9, 5, 4,
];

// exponents, position, code of the image
const IMAGES: [([u16; 4], usize, u16); 15] = [
    ([0, 0, 0, 0], 0, 5),
    ([0, 0, 0, 0], 23, 4),
    ([1, 0, 0, 0], 0, 4),
    ([1, 0, 0, 0], 23, 5),
    ([0, 1, 0, 0], 4, 5),
    ([0, 2, 0, 0], 4, 6),
    ([0, 0, 1, 0], 6, 5),
    ([0, 0, 0, 1], 12, 5),
    ([1, 1, 1, 1], 0, 9),
    ([1, 1, 1, 1], 23, 5),
    ([5, 7, 3, 9], 17, 0),
    ([65535, 65535, 65535, 65535], 11, 8),
    ([4095, 4095, 4095, 4095], 8, 8),
    ([1, 2, 0, 1], 24, 0),
    ([0, 0, 0, 0], 24, 0),
];

#[test]
fn four_axes(rt: HostRuntime) -> Result<(), Fail> {
    let field = Residue::new(11)?;
    let mut array = PeriodicArray::unit();
    assert!(rt; array.set(&field, &FOUR_AXES, &FOUR_AXES_CELLS).is_ok());
    assert!(rt; array.variables() == 4);
    assert!(rt; array.width() == 24);
    for (exponents, position, code) in IMAGES {
        assert_eq!(rt;
            array.image(&field, &Monomial { exponents }, position),
            code
        );
    }
    Ok(())
}

// The infinite array goes on past the period, and absent axes have period 1.
#[test]
fn past_the_period(rt: HostRuntime) -> Result<(), Fail> {
    let field = Residue::new(11)?;
    let cells = [3, 5, 9, 6, 0, 10, 8, 4, 7, 2];
    let mut array = PeriodicArray::unit();
    assert!(rt; array.set(&field, &[10], &cells).is_ok());
    let expected = [
        ([0, 0, 0, 0], 3),
        ([9, 0, 0, 0], 2),
        ([10, 0, 0, 0], 3),
        ([65535, 0, 0, 0], 10),
        ([4, 7, 8, 9], 0),
    ];
    for (exponents, code) in expected {
        assert_eq!(rt; array.code_at(&field, &Monomial { exponents }), code);
    }
    Ok(())
}

// Under a later field of smaller order the cells count as their remainders.
#[test]
fn smaller_field(rt: HostRuntime) -> Result<(), Fail> {
    let eleven = Residue::new(11)?;
    let seven = Residue::new(7)?;
    let cells = [3, 5, 9, 6, 0, 10, 8, 4, 7, 2];
    let remainders = [3, 5, 2, 6, 0, 3, 1, 4, 0, 2];
    let mut array = PeriodicArray::unit();
    assert!(rt; array.set(&eleven, &[10], &cells).is_ok());
    let one = Monomial { exponents: [0; 4] };
    for (position, code) in remainders.iter().enumerate() {
        assert_eq!(rt; array.image(&seven, &one, position), *code);
    }
    Ok(())
}

// The unit array has one cell, with code 1.
#[test]
fn unit(rt: HostRuntime) -> Result<(), Fail> {
    let field = Residue::new(2)?;
    let array = PeriodicArray::unit();
    assert!(rt; array.variables() == 1);
    assert!(rt; array.width() == 1);
    let far = Monomial {
        exponents: [7, 7, 7, 7],
    };
    assert_eq!(rt; array.code_at(&field, &far), 1);
    assert_eq!(rt; array.image(&field, &far, 1), 0);
    Ok(())
}
