// Products by a variable, told from their exponents; no product is formed, so none overflows.
ghost use Rattle.std.specs.Prelude.{◌≡◌, ◌+◌, ◌==◌, if◌then◌else◌, Decides};
ghost use Rattle.monomials.specs.Monomials.{mono};
ghost use Rattle.refilling.specs.Borders.{IsProduct};

// Whether one exponent is another, or that and 1 more where the variable is its own.
fn is_step(factor: u16, own: bool, product: u16) -> bool
    ensures { result ≡ (factor + (if own then 1 else 0) == product) }
{
    u32::from(factor) + u32::from(own) == u32::from(product)
}

// Whether one monomial is the product of another by a variable.
pub(crate) fn is_product(factor: &[u16; 4], variable: usize, product: &[u16; 4]) -> bool
    ensures { Decides result (IsProduct (mono factor.now) variable (mono product.now)) }
{
    let [f0, f1, f2, f3] = *factor;
    let [p0, p1, p2, p3] = *product;
    is_step(f0, variable == 0, p0)
        && is_step(f1, variable == 1, p1)
        && is_step(f2, variable == 2, p2)
        && is_step(f3, variable == 3, p3)
}
