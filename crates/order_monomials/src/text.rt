// How a monomial in two variables is written: 1, or its powers with a space between.
ghost use Rattle.std.specs.Prelude.{Some};
ghost use Rattle.monomials.specs.Monomials.{mono};
ghost use Rattle.order_monomials.specs.Texts.{power_text, monomial_text};

use monomials::Monomial;
use std::fmt;

// A power of a variable that occurs.
#[derive(Clone, Copy)]
struct Power {
    variable: char,
    exponent: u16,
}

impl fmt::Display for Power {
    ghost output = { λ p. Some (power_text p.variable p.exponent) };

    fn fmt<W: fmt::Write>(&self, f: &mut fmt::Formatter<W>) -> fmt::Result {
        let variable = self.variable;
        let exponent = self.exponent;
        if exponent == 1 {
            write!(f, "{variable}")
        } else {
            write!(f, "{variable}^{exponent}")
        }
    }
}

#[derive(Clone, Copy)]
pub struct Written(pub Monomial);

impl fmt::Display for Written {
    ghost output = { λ w. Some (monomial_text (mono w.0.exponents)) };

    fn fmt<W: fmt::Write>(&self, f: &mut fmt::Formatter<W>) -> fmt::Result {
        let [u, v, _, _] = self.0.exponents;
        let first = Power {
            variable: 'u',
            exponent: u,
        };
        let second = Power {
            variable: 'v',
            exponent: v,
        };
        match (u, v) {
            (0, 0) => write!(f, "1"),
            (_, 0) => write!(f, "{first}"),
            (0, _) => write!(f, "{second}"),
            (_, _) => write!(f, "{first} {second}"),
        }
    }
}
