// Sorting by a monomial order.
ghost use Rattle.std.specs.List.Sorted.{IsPermutation};
ghost use Rattle.order_monomials.specs.Ascending.{Ascending};

use monomials::{Monomial, MonomialOrder};

// Puts the same monomials into ascending order.
pub fn sort<O: MonomialOrder>(under: &O, monomials: &mut [Monomial])
    ensures shuffled { IsPermutation monomials.old monomials.new }
    ensures ascending { Ascending (O.MonomialOrder.order under.now) monomials.new }
{
    monomials.sort_unstable_by(|a, b| under.compare(a, b));
}
