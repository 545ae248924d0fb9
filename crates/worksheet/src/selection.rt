// The next monomial: the first, by the order, of those that wait.
ghost use Rattle.std.specs.Prelude.{◌<◌, ◌≤◌};
ghost use Rattle.monomials.specs.Monomials.{mono, times, variable as var, exponent};
ghost use Rattle.monomials.specs.Operations.{largest_exponent};
ghost use Rattle.worksheet.specs.Selections.{OpenProduct, Earlier, NextOrFinished, ProductsFit};

use monomials::{Monomial, MonomialOrder};
use rows::{Line, Verdict, is_judged, is_multiple};

// The product by a variable, where it is neither judged nor a multiple of a listed lead.
fn open_product(lines: &[Line], monomial: &Monomial, variable: usize) -> Option<Monomial>
    requires { (variable < 4) × (exponent (mono monomial.now.exponents) variable < largest_exponent) }
    ensures { OpenProduct lines.now (times (mono monomial.now.exponents) (var variable)) result }
{
    let product = monomial.times_variable(variable)?;
    if is_judged(lines, &product) || is_multiple(lines, &product) {
        None
    } else {
        Some(product)
    }
}

// The earlier of what was chosen so far and a candidate.
fn earlier<O: MonomialOrder>(order: &O, chosen: Option<Monomial>, candidate: Monomial) -> Monomial
    ensures { Earlier (O.MonomialOrder.order order.now) chosen candidate result }
{
    match chosen {
        Some(chosen) => {
            if order.compare(&candidate, &chosen).is_lt() {
                candidate
            } else {
                chosen
            }
        }
        None => candidate,
    }
}

// The next monomial, or none where the lines are finished.
pub(crate) fn next<O: MonomialOrder>(
    lines: &[Line],
    variables: usize,
    order: &O,
) -> Option<Monomial>
    requires { (variables ≤ 4) × (ProductsFit lines.now) }
    ensures { NextOrFinished variables (O.MonomialOrder.order order.now) lines.now result }
{
    if lines.is_empty() {
        return Some(Monomial::one());
    }
    let mut chosen = None;
    for line in lines {
        if let Verdict::Stair = line.verdict {
            for variable in 0..variables {
                if let Some(product) = open_product(lines, &line.monomial, variable) {
                    chosen = Some(earlier(order, chosen, product));
                }
            }
        }
    }
    chosen
}
