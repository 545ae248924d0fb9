// A judged monomial with its polynomial: the code 1 at the monomial itself, and code j of the combination
// at stair j, counted from 0; the image of that polynomial, and the position that the line clears, 64 where it clears none.
// A line is lent, so its form is fixed: arrays of 64 codes, and a number for the pivot beside the verdict.
ghost use Rattle.std.specs.Prelude.{◌≡◌, replicate};
ghost use Rattle.monomials.specs.Monomials.{mono, one};
ghost use Rattle.rows.specs.declared.verdict.Verdict.TheVariants.{Relation};

use crate::verdict::Verdict;
use monomials::Monomial;

#[derive(Clone, Copy)]
pub struct Line {
    pub monomial: Monomial,
    pub verdict: Verdict,
    pub combination: [u16; 64],
    pub image: [u16; 64],
    pub pivot: u8,
}

impl Line {
    // A line to lend: the monomial 1, and codes of 0.
    pub fn unused() -> Line
        ensures monomial { mono result.monomial.exponents ≡ one }
        ensures codes { (result.combination ≡ replicate 64 0) × (result.image ≡ replicate 64 0) }
        ensures verdict { (result.verdict ≡ Relation) × (result.pivot ≡ 64) }
    {
        Line {
            monomial: Monomial::one(),
            verdict: Verdict::Relation,
            combination: [0; 64],
            image: [0; 64],
            pivot: 64,
        }
    }
}
