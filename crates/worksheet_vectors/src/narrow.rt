// A subject of width 0: every polynomial annihilates it, so 1 is a relation and there is no stair.
ghost use Rattle.worksheet_vectors.specs.Narrow.{no_positions, no_positions_laws};

use fields::{Field, ListedField, Residue};
use monomials::{Graded, Monomial};
use rows::Line;
use std::test::Fail;
use subjects::Subject;
use worksheet::Worksheet;

pub(crate) struct NoPositions;

impl Subject for NoPositions {
    ghost meaning = { λ _. no_positions };

    ghost laws = { λ _. no_positions_laws };

    fn variables(&self) -> usize {
        1
    }

    fn width(&self) -> usize {
        0
    }

    fn image<F: Field>(&self, _field: &F, _monomial: &Monomial, _position: usize) -> u16 {
        0
    }
}

#[test]
fn no_stair(rt: HostRuntime) -> Result<(), Fail> {
    let field = Residue::new(5)?;
    let mut lines = [Line::unused(); 2];
    let mut sheet = Worksheet::open(&NoPositions, &field, &mut lines);
    let run = sheet.run(&NoPositions, &field, &Graded).is_ok();
    let summary = sheet.summary();
    assert!(rt; run && summary.judged == 1 && summary.stairs == 0 && summary.finished);
    let far = Monomial {
        exponents: [9, 0, 0, 0],
    };
    assert_eq!(rt; sheet.refill(&field, &[], &far)?, 0);
    Ok(())
}
