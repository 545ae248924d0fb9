// What is asked of the fields of either kind.
use faults::Refusal;
use fields::ListedField;
use std::process::Abort;
use std::test::Fail;

// Numbers that are not listed are refused by ground 4.
pub(crate) fn refuses<F: ListedField + Drop, A: Abort>(
    rt: &A,
    numbers: &[u16],
) -> Result<(), Fail> {
    for number in numbers {
        match F::new(*number) {
            Ok(_) => return Err(Fail::new("the number is taken")),
            Err(fault) => assert_eq!(rt; Refusal::from(fault).ground, 4),
        }
    }
    Ok(())
}

// The number of the field, a, b, a + b, −a, a × b.
pub(crate) fn operates<F: ListedField + Drop, A: Abort>(
    rt: &A,
    cases: &[(u16, u16, u16, u16, u16, u16)],
) -> Result<(), Fail> {
    for (number, a, b, sum, negative, product) in cases {
        let field = F::new(*number)?;
        assert_eq!(rt; field.sum(*a, *b), *sum);
        assert_eq!(rt; field.negative(*a), *negative);
        assert_eq!(rt; field.product(*a, *b), *product);
    }
    Ok(())
}

// The number of the field, a, the inverse of a.
pub(crate) fn inverts<F: ListedField + Drop, A: Abort>(
    rt: &A,
    cases: &[(u16, u16, u16)],
) -> Result<(), Fail> {
    for (number, a, inverse) in cases {
        assert_eq!(rt; F::new(*number)?.inverse(*a), Some(*inverse));
    }
    Ok(())
}

// The number of the field, and a number that counts as zero there.
pub(crate) fn has_no_inverse<F: ListedField + Drop, A: Abort>(
    rt: &A,
    cases: &[(u16, u16)],
) -> Result<(), Fail> {
    for (number, a) in cases {
        assert_eq!(rt; F::new(*number)?.inverse(*a), None);
    }
    Ok(())
}
