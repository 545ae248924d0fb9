// The monomials that the program prints.
ghost use Rattle.std.specs.Prelude.{◌≡◌};
ghost use Rattle.order_monomials.specs.Listed.{in_two, AllUpTo};

use monomials::Monomial;

// The product of powers of the first two variables.
fn in_two(first: u16, second: u16) -> Monomial
    ensures { result ≡ in_two first second }
{
    Monomial {
        exponents: [first, second, 0, 0],
    }
}

// The monomials of degree up to 3 in two variables.
pub fn up_to_degree_three() -> [Monomial; 10]
    ensures { AllUpTo 2 3 result }
{
    [
        in_two(0, 0),
        in_two(0, 1),
        in_two(0, 2),
        in_two(0, 3),
        in_two(1, 0),
        in_two(1, 1),
        in_two(1, 2),
        in_two(2, 0),
        in_two(2, 1),
        in_two(3, 0),
    ]
}
