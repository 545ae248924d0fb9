// The binary fields: codes are polynomials over the bits, of degree below k, with bit i as the coefficient of z^i.
ghost use Rattle.std.specs.Prelude.{◌≡◌, ◌*◌, ◌%◌, ◌^◌, ◌<◌, MatchResult};
ghost use Rattle.faults.specs.declared.arithmetic.ArithmeticFault.TheVariants.{Unlisted};
ghost use Rattle.fields.specs.Binaries.{binary, Listed, reduction, remainder};
ghost use Rattle.fields.specs.PowersLemmas.{field_laws};
ghost use Rattle.std.proofs.Common.{rules, arith};

use crate::field::{Field, ListedField};
use faults::ArithmeticFault;

#[derive(Clone, Copy)]
pub struct Binary {
    degree: u16,
    polynomial: u16,
    ghost listed: { Listed degree },
    ghost reduces: { polynomial ≡ reduction degree },
}

impl Binary {
    // The code that a number counts as: its lowest bits.
    fn code(&self, a: u16) -> u16
        ensures { result ≡ a % 2 ^ self.now.degree }
    {
        a % (1 << self.degree)
    }

    // z times a code.
    fn by_z(&self, code: u16) -> u16
        requires { code < 2 ^ self.now.degree }
        ensures { result ≡ remainder self.now.degree (reduction self.now.degree) 1 (code * 2) }
    {
        let double = code * 2;
        if double < 1 << self.degree {
            double
        } else {
            double ^ self.polynomial
        }
    }
}

impl Field for Binary {
    const LARGEST: u32 = 256;

    ghost LARGEST = { 256 };

    ghost arithmetic = { λ f. binary f.degree };

    ghost laws = { λ f. field_laws f.degree f.listed };

    ghost admitted = { first_of (Prim.search rules, Prim.grind (arith, Self.row.coded.inj)) };

    ghost bounded = { first_of (Prim.search rules, Prim.grind (arith, Self.row.coded.inj)) };

    fn order(&self) -> u32 {
        1 << self.degree
    }

    fn sum(&self, a: u16, b: u16) -> u16 {
        self.code(a ^ b)
    }

    fn negative(&self, a: u16) -> u16 {
        self.code(a)
    }

    // The sum of a · z^i, reduced at each step, for the bits i of b.
    fn product(&self, a: u16, b: u16) -> u16 {
        let mut copy = self.code(a);
        let terms = self.code(b);
        let mut total = 0;
        for i in 0..self.degree {
            total ^= copy * (terms >> i & 1);
            copy = self.by_z(copy);
        }
        total
    }

    fn multiply_add(&self, a: u16, factor: u16, b: u16) -> u16 {
        self.sum(a, self.product(factor, b))
    }

    // The power a^(q − 2) = a^2 · a^4 · .. · a^(q / 2), since a^(q − 1) is 1.
    fn inverse(&self, a: u16) -> Option<u16> {
        let mut square = self.code(a);
        if square == 0 {
            return None;
        }
        let mut inverse = 1;
        for _ in 1..self.degree {
            square = self.product(square, square);
            inverse = self.product(inverse, square);
        }
        Some(inverse)
    }
}

impl ListedField for Binary {
    ghost listed = { Listed };

    ghost named = { binary };

    // The field of 2^degree codes, for a listed degree.
    fn new(degree: u16) -> Result<Binary, ArithmeticFault>
        ensures degree { MatchResult result (λ f. (f.degree ≡ degree) × Listed degree) (λ e. (e ≡ Unlisted) × (Listed degree → ⊥)) }
        ensures made { MatchResult result (λ f. (binary f.degree ≡ binary degree) × Listed degree) (λ e. (e ≡ Unlisted) × (Listed degree → ⊥)) }
    {
        let polynomial = match degree {
            2 => 0b111,
            3 => 0b1011,
            4 => 0b1_0011,
            8 => 0b1_0001_1011,
            _ => return Err(ArithmeticFault::Unlisted),
        };
        Ok(Binary { degree, polynomial })
    }
}
