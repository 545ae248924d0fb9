// Refusals of arrays and of terms, on both sides of each limit, modulo 11.
use faults::{Layer, Refusal};
use fields::{ListedField, Residue};
use monomials::Monomial;
use polynomials::Term;
use std::process::Abort;
use std::test::Fail;
use subjects::{PeriodicArray, check as check_relation};

// A refusal in a layer.
fn refused(layer: Layer, ground: u8, place: usize) -> Option<Refusal> {
    Some(Refusal {
        ground,
        place,
        layer,
    })
}

// What an array of these periods and cells is refused by, if anything.
fn array<'a>(periods: &'a [u16], cells: &'a [u16]) -> Result<Option<Refusal>, Fail> {
    let field = Residue::new(11)?;
    let mut array = PeriodicArray::unit();
    Ok(array.set(&field, periods, cells).err().map(Refusal::from))
}

// What terms are refused by, if anything, on a pattern of 1 by 1.
fn terms(terms: &[Term]) -> Result<Option<Refusal>, Fail> {
    let field = Residue::new(11)?;
    let mut array = PeriodicArray::unit();
    array.set(&field, &[1, 1], &[1])?;
    Ok(
        check_relation(&array, &field, terms)
            .err()
            .map(Refusal::from),
    )
}

// Each case is an answer with what it should be.
fn compared(rt: &impl Abort, cases: &[(Option<Refusal>, Option<Refusal>)]) {
    for (answer, expected) in cases {
        assert_eq!(rt; *answer, *expected);
    }
}

#[test]
fn variables(rt: HostRuntime) -> Result<(), Fail> {
    compared(
        &rt,
        &[
            (array(&[], &[1])?, refused(Layer::Subject, 6, 0)),
            (array(&[1], &[1])?, None),
            (array(&[1, 1, 1, 1], &[1])?, None),
            (
                array(&[1, 1, 1, 1, 1], &[1])?,
                refused(Layer::Subject, 6, 0),
            ),
            (array(&[0, 0, 0, 0, 0], &[])?, refused(Layer::Subject, 6, 0)),
        ],
    );
    Ok(())
}

#[test]
fn products_of_periods(rt: HostRuntime) -> Result<(), Fail> {
    let cells = [0; 64];
    compared(
        &rt,
        &[
            (array(&[64], &cells)?, None),
            (array(&[65], &cells)?, refused(Layer::Subject, 7, 0)),
            (array(&[8, 8], &cells)?, None),
            (array(&[2, 4, 4, 2], &cells)?, None),
            (array(&[13, 5], &cells)?, refused(Layer::Subject, 7, 1)),
            (array(&[8, 8, 2], &cells)?, refused(Layer::Subject, 7, 2)),
            (array(&[2, 4, 4, 3], &cells)?, refused(Layer::Subject, 7, 3)),
        ],
    );
    Ok(())
}

#[test]
fn periods_at_fault(rt: HostRuntime) -> Result<(), Fail> {
    let largest = [65535; 4];
    compared(
        &rt,
        &[
            (array(&[0], &[])?, refused(Layer::Subject, 7, 0)),
            (array(&[3, 0, 2], &[])?, refused(Layer::Subject, 7, 1)),
            (array(&[65, 0], &[])?, refused(Layer::Subject, 7, 0)),
            (array(&largest, &[])?, refused(Layer::Subject, 7, 0)),
            (array(&[0], &[11])?, refused(Layer::Subject, 7, 0)),
        ],
    );
    Ok(())
}

#[test]
fn cells(rt: HostRuntime) -> Result<(), Fail> {
    compared(
        &rt,
        &[
            (array(&[2, 2], &[1, 2, 3])?, refused(Layer::Subject, 9, 0)),
            (array(&[2, 2], &[1, 2, 3, 4])?, None),
            (
                array(&[2, 2], &[1, 2, 3, 4, 5])?,
                refused(Layer::Subject, 9, 0),
            ),
            (array(&[2], &[])?, refused(Layer::Subject, 9, 0)),
            (array(&[2], &[11, 12, 13])?, refused(Layer::Subject, 9, 0)),
        ],
    );
    Ok(())
}

#[test]
fn codes(rt: HostRuntime) -> Result<(), Fail> {
    compared(
        &rt,
        &[
            (array(&[3], &[10, 10, 10])?, None),
            (array(&[3], &[11, 10, 10])?, refused(Layer::Subject, 10, 0)),
            (
                array(&[3], &[10, 11, 65535])?,
                refused(Layer::Subject, 10, 1),
            ),
            (array(&[3], &[0, 0, 65535])?, refused(Layer::Subject, 10, 2)),
        ],
    );
    Ok(())
}

#[test]
fn term_codes(rt: HostRuntime) -> Result<(), Fail> {
    let fine = Term::new([1, 1, 0, 0], 10);
    let eleven = Term::new([0; 4], 11);
    let high = Term::new([4096, 0, 0, 0], 1);
    compared(
        &rt,
        &[
            (terms(&[])?, None),
            (terms(&[fine])?, None),
            (terms(&[eleven])?, refused(Layer::Worksheet, 10, 0)),
            (
                terms(&[fine, eleven, eleven])?,
                refused(Layer::Worksheet, 10, 1),
            ),
            (
                terms(&[high, fine, eleven])?,
                refused(Layer::Worksheet, 10, 2),
            ),
        ],
    );
    Ok(())
}

#[test]
fn term_exponents(rt: HostRuntime) -> Result<(), Fail> {
    let fine = Term::new([4095, 4095, 0, 0], 1);
    let last = Term::new([0, 0, 0, 9], 1);
    let outside = [
        [4096, 0, 0, 0],
        [0, 4096, 0, 0],
        [0, 0, 1, 0],
        [0, 0, 0, 1],
        [65535, 65535, 65535, 65535],
    ];
    assert_eq!(rt; terms(&[fine])?, None);
    for exponents in outside {
        let three = [fine, Term::new(exponents, 1), last];
        assert_eq!(rt; terms(&three)?, refused(Layer::Worksheet, 15, 1));
    }
    Ok(())
}

// A refusal leaves the array as it was.
#[test]
fn unchanged(rt: HostRuntime) -> Result<(), Fail> {
    let field = Residue::new(11)?;
    let mut array = PeriodicArray::unit();
    let made = array.set(&field, &[2], &[4, 7]).is_ok();
    let short = array.set(&field, &[3], &[4, 7]).is_err();
    let code = array.set(&field, &[2], &[5, 11]).is_err();
    assert!(rt; made && short && code);
    let second = Monomial {
        exponents: [1, 0, 0, 0],
    };
    assert_eq!(rt; array.code_at(&field, &second), 7);
    Ok(())
}

// An array is made where its cells fit the periods and the field, and else refused by its fault.
#[test]
fn made(rt: HostRuntime) -> Result<(), Fail> {
    let field = Residue::new(11)?;
    let array = PeriodicArray::new(&field, &[2], &[4, 7])?;
    let second = Monomial {
        exponents: [1, 0, 0, 0],
    };
    assert_eq!(rt; array.code_at(&field, &second), 7);
    let outside = PeriodicArray::new(&field, &[2], &[5, 11]).err();
    assert_eq!(rt; outside.map(Refusal::from), refused(Layer::Subject, 10, 1));
    Ok(())
}
