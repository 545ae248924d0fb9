// Four weights, one for each variable.
ghost use Rattle.std.specs.Prelude.{◌≡◌, ℕ, ◌*◌, ◌≤◌, MatchResult};
ghost use Rattle.faults.specs.declared.arithmetic.ArithmeticFault.TheVariants.{Weight};
ghost use Rattle.monomials.specs.Monomials.{mono};
ghost use Rattle.monomials.specs.Rules.{weighted_sum};
ghost use Rattle.monomials.specs.Weights.{largest_weight, Admitted, FirstAbove};

use crate::monomial::Monomial;
use faults::ArithmeticFault;

#[derive(Clone, Copy)]
pub struct Weights {
    weights: [u16; 4],
    ghost admitted: { Admitted weights },
}

impl Weights {
    // Each weight is 0 to 255; the first above is refused.
    pub fn new(weights: [u16; 4]) -> Result<Weights, ArithmeticFault>
        ensures { MatchResult result (λ w. (w.weights ≡ weights) × Admitted weights) (λ e. ((k : ℕ) × (e ≡ Weight k) × FirstAbove weights k)) }
    {
        match weights.iter().position(|weight| *weight > 255) {
            Some(place) => Err(ArithmeticFault::Weight(place)),
            None => Ok(Weights { weights }),
        }
    }

    // The sum of the exponents, each times its weight.
    pub fn sum(&self, monomial: &Monomial) -> u32
        ensures { result ≡ weighted_sum self.now.weights (mono monomial.now.exponents) }
    {
        let [w0, w1, w2, w3] = self.weights;
        let [e0, e1, e2, e3] = monomial.exponents;
        part(w0, e0) + part(w1, e1) + part(w2, e2) + part(w3, e3)
    }
}

// One variable's part of a weighted sum; four of them fit 32 bits.
fn part(weight: u16, exponent: u16) -> u32
    requires { weight ≤ largest_weight }
    ensures value { result ≡ weight * exponent }
    ensures small { result ≤ 255 * 65535 }
{
    u32::from(weight) * u32::from(exponent)
}
