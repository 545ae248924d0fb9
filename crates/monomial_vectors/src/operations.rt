// What the operations answer, at the ends of their ranges too.
use monomials::{Monomial, Weights};
use std::test::Fail;

fn monomial(e0: u16, e1: u16, e2: u16, e3: u16) -> Monomial {
    Monomial {
        exponents: [e0, e1, e2, e3],
    }
}

#[test]
fn degrees(rt: HostRuntime) -> Result<(), Fail> {
    assert_eq!(rt; Monomial::one().degree(), 0);
    assert_eq!(rt; monomial(1, 2, 3, 4).degree(), 10);
    assert_eq!(rt; monomial(65535, 65535, 65535, 65535).degree(), 262140);
    let largest = monomial(65535, 65535, 65535, 65535);
    assert_eq!(rt; Weights::new([255, 255, 255, 255])?.sum(&largest), 66845700);
    Ok(())
}

#[test]
fn products(rt: HostRuntime) {
    let start = monomial(65534, 65535, 0, 7);
    assert!(rt; start.times_variable(0) == Some(monomial(65535, 65535, 0, 7)));
    assert!(rt; start.times_variable(1).is_none());
    assert!(rt; start.times_variable(2) == Some(monomial(65534, 65535, 1, 7)));
    assert!(rt; start.times_variable(3) == Some(monomial(65534, 65535, 0, 8)));
    assert!(rt; start.times_variable(4).is_none());
}

#[test]
fn divisors(rt: HostRuntime) {
    let divisor = monomial(1, 0, 2, 0);
    assert!(rt; divisor.divides(&divisor));
    assert!(rt; divisor.divides(&monomial(1, 5, 2, 0)));
    assert!(rt; Monomial::one().divides(&divisor));
    assert!(rt; !divisor.divides(&monomial(9, 9, 1, 9)));
    assert!(rt; !divisor.divides(&monomial(0, 0, 2, 0)));
}

#[test]
fn variables(rt: HostRuntime) {
    assert!(rt; Monomial::one().is_within(0));
    assert!(rt; monomial(3, 1, 0, 0).is_within(2));
    assert!(rt; !monomial(3, 1, 0, 0).is_within(1));
    assert!(rt; !monomial(0, 0, 0, 1).is_within(3));
    assert!(rt; monomial(0, 0, 0, 1).is_within(4));
    assert!(rt; monomial(1, 1, 1, 1).is_within(9));
}

#[test]
fn equality(rt: HostRuntime) {
    assert!(rt; monomial(1, 2, 3, 4) == monomial(1, 2, 3, 4));
    assert!(rt; monomial(1, 2, 3, 4) != monomial(1, 2, 3, 5));
    assert!(rt; monomial(0, 2, 3, 4) != monomial(1, 2, 3, 4));
}
