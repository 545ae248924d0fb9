// The cells of a period: whether coordinates lie inside it, and the coordinates of the cell at a position.
ghost use Rattle.std.specs.Prelude.{◌≡◌, ◌+◌, ◌/◌, ◌%◌, ◌^◌, ◌<◌, ◌≤◌, ◌⊎◌, length, Decides, MatchOption, OnSome};
ghost use Rattle.monomials.specs.Monomials.{mono};
ghost use Rattle.polynomials.specs.Arrays.{period, cells_of, cell_at, Inside};

use monomials::Monomial;

// A monomial has an exponent for each of four axes.
const MOST_AXES: usize = 4;

// The period along an axis, counted from 0; an absent axis has period 1.
fn along(periods: &[u16], axis: usize) -> u16
    ensures { result ≡ period periods.now axis }
{
    periods.get(axis).copied().unwrap_or(1)
}

// How many cells the period has; none where it has more than four axes.
pub fn cell_count(periods: &[u16]) -> Option<usize>
    ensures { MatchOption result (4 < length periods.now) (λ cells. (length periods.now ≤ 4) × (cells ≡ cells_of periods.now)) }
{
    if periods.len() > MOST_AXES {
        return None;
    }
    let first = usize::from(along(periods, 0));
    let second = usize::from(along(periods, 1));
    let third = usize::from(along(periods, 2));
    let fourth = usize::from(along(periods, 3));
    Some(first * (second * (third * fourth)))
}

// Whether coordinates lie inside the period.
pub fn is_inside(periods: &[u16], coordinates: &Monomial) -> bool
    ensures { Decides result (Inside periods.now (mono coordinates.now.exponents)) }
{
    let [a, b, c, d] = coordinates.exponents;
    a < along(periods, 0) && b < along(periods, 1) && c < along(periods, 2) && d < along(periods, 3)
}

// The coordinate along an axis, and what is left of the position.
fn divided(position: usize, by: u16) -> (u16, usize)
    requires { 0 < by }
    ensures { (result.0 ≡ position % by) × (result.1 ≡ position / by) }
{
    let by = usize::from(by);
    ((position % by) as u16, position / by)
}

// The coordinates of the cell at a position; none where the period has no such cell, or more than four axes.
pub fn cell_at(periods: &[u16], position: usize) -> Option<Monomial>
    ensures cases { MatchOption result ((4 < length periods.now) ⊎ (cells_of periods.now ≤ position)) (λ cell. (position < cells_of periods.now) × (mono cell.exponents ≡ cell_at periods.now position)) }
    ensures next { OnSome result (position + 1 < 2 ^ 64) }
{
    if position >= cell_count(periods)? {
        return None;
    }
    let (first, rest) = divided(position, along(periods, 0));
    let (second, rest) = divided(rest, along(periods, 1));
    let (third, rest) = divided(rest, along(periods, 2));
    let (fourth, _) = divided(rest, along(periods, 3));
    Some(Monomial {
        exponents: [first, second, third, fourth],
    })
}
