// Pairs of monomials, with what each order says of the first.
use monomials::{Graded, Lexicographic, Monomial, MonomialOrder, Weighted, Weights};
use std::cmp::Ordering;
use std::process::Abort;
use std::test::Fail;

type Pair = ([u16; 4], [u16; 4], Ordering);

fn check_pairs<O: MonomialOrder>(rt: &impl Abort, order: &O, pairs: &[Pair]) {
    for (first, second, expected) in pairs {
        let first = Monomial { exponents: *first };
        let second = Monomial { exponents: *second };
        assert_eq!(rt; order.compare(&first, &second), *expected);
        assert_eq!(rt; order.compare(&second, &first), expected.reverse());
    }
}

fn weighted<O: Drop>(weights: [u16; 4], below: O) -> Result<Weighted<O>, Fail> {
    let weights = Weights::new(weights)?;
    Ok(Weighted { weights, below })
}

#[test]
fn lexicographic(rt: HostRuntime) {
    check_pairs(
        &rt,
        &Lexicographic,
        &[
            // equal
            ([0, 0, 0, 0], [0, 0, 0, 0], Ordering::Equal),
            ([7, 0, 65535, 1], [7, 0, 65535, 1], Ordering::Equal),
            // the last variable alone
            ([1, 2, 3, 4], [1, 2, 3, 5], Ordering::Less),
            // the leftmost difference, whatever follows
            ([0, 65535, 65535, 65535], [1, 0, 0, 0], Ordering::Less),
            ([2, 1, 0, 9], [2, 0, 9, 9], Ordering::Greater),
        ],
    );
}

#[test]
fn graded(rt: HostRuntime) {
    check_pairs(
        &rt,
        &Graded,
        &[
            ([4, 0, 2, 1], [4, 0, 2, 1], Ordering::Equal),
            ([1, 2, 3, 4], [1, 2, 3, 5], Ordering::Less),
            // the degree, against the lexicographic order
            ([2, 0, 0, 0], [0, 0, 0, 3], Ordering::Less),
            // equal degrees
            ([0, 0, 0, 2], [0, 0, 1, 1], Ordering::Less),
            ([1, 0, 0, 1], [0, 1, 1, 0], Ordering::Greater),
            // the largest exponents
            (
                [65535, 65535, 65535, 65534],
                [65535, 65535, 65535, 65535],
                Ordering::Less,
            ),
        ],
    );
}

#[test]
fn weights_zero(rt: HostRuntime) -> Result<(), Fail> {
    let pairs = [
        ([0, 1, 0, 0], [0, 1, 0, 0], Ordering::Equal),
        ([0, 5, 0, 0], [1, 0, 0, 0], Ordering::Less),
        ([0, 0, 0, 0], [0, 0, 0, 1], Ordering::Less),
    ];
    check_pairs(&rt, &weighted([0, 0, 0, 0], Lexicographic)?, &pairs);
    check_pairs(&rt, &Lexicographic, &pairs);
    check_pairs(
        &rt,
        &weighted([0, 0, 0, 0], Graded)?,
        &[
            ([0, 5, 0, 0], [1, 0, 0, 0], Ordering::Greater),
            ([0, 1, 0, 0], [1, 0, 0, 0], Ordering::Less),
        ],
    );
    Ok(())
}

#[test]
fn weights_largest(rt: HostRuntime) -> Result<(), Fail> {
    check_pairs(
        &rt,
        &weighted([255, 255, 255, 255], Lexicographic)?,
        &[
            (
                [65535, 65535, 65535, 65535],
                [65535, 65535, 65535, 65535],
                Ordering::Equal,
            ),
            (
                [65535, 65535, 65535, 65534],
                [65535, 65535, 65535, 65535],
                Ordering::Less,
            ),
            (
                [65535, 65535, 65534, 65535],
                [65535, 65535, 65535, 65534],
                Ordering::Less,
            ),
        ],
    );
    Ok(())
}

#[test]
fn weights_in_turn(rt: HostRuntime) -> Result<(), Fail> {
    check_pairs(
        &rt,
        &weighted([3, 1, 0, 0], Lexicographic)?,
        &[
            // 3 against 4, then a tie at 3, and one that the weights do not see
            ([1, 0, 0, 0], [0, 4, 0, 0], Ordering::Less),
            ([0, 3, 0, 0], [1, 0, 0, 0], Ordering::Less),
            ([0, 0, 0, 9], [0, 0, 1, 0], Ordering::Less),
        ],
    );
    // a first weight, then another, then the degree, then the leftmost difference
    check_pairs(
        &rt,
        &weighted([1, 0, 0, 0], weighted([0, 1, 0, 0], Graded)?)?,
        &[
            ([1, 9, 9, 9], [2, 0, 0, 0], Ordering::Less),
            ([1, 2, 0, 0], [1, 1, 9, 9], Ordering::Greater),
            ([1, 1, 2, 0], [1, 1, 0, 3], Ordering::Less),
            ([1, 1, 1, 2], [1, 1, 2, 1], Ordering::Less),
            ([1, 1, 2, 1], [1, 1, 2, 1], Ordering::Equal),
        ],
    );
    Ok(())
}
