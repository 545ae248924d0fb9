// The lines of a listing that list a monomial.
ghost use Rattle.std.specs.Result.{MatchResult};
ghost use Rattle.show_staircase.specs.Readings.{Never, Pair, RelationText, Lists, NoMonomial};
ghost use Rattle.show_staircase.specs.declared.marks.Listed.{Listed};

use crate::grounds::Ground;
use crate::marks::{Exponents, Listed};
use crate::words::{are_codes, exponent};
use rows::Verdict;

// The two exponents that a text has, with a space between.
fn pair(text: &str) -> Result<Exponents, Ground>
    ensures { MatchResult result (λ p. Pair text.now p.u p.v) (λ reason. NoMonomial reason × Never (Pair text.now)) }
{
    let Some((first, second)) = text.split_once(' ') else {
        return Err(Ground::Axes);
    };
    if second.contains(' ') {
        return Err(Ground::Axes);
    }
    let Some(u) = exponent(first) else {
        return Err(Ground::Exponent);
    };
    let Some(v) = exponent(second) else {
        return Err(Ground::Exponent);
    };
    Ok(Exponents { u, v })
}

// The exponents of a relation, before its codes.
fn relation(text: &str) -> Result<Exponents, Ground>
    ensures { MatchResult result (λ p. RelationText text.now p.u p.v) (λ reason. NoMonomial reason × Never (RelationText text.now)) }
{
    let Some((before, codes)) = text.split_once(':') else {
        return Err(Ground::Line);
    };
    let Some(exponents) = before.strip_suffix(' ') else {
        return Err(Ground::Line);
    };
    if are_codes(codes) {
        pair(exponents)
    } else {
        Err(Ground::Line)
    }
}

// The monomial that a line lists.
pub fn entry(line: &str) -> Result<Listed, Ground>
    ensures { MatchResult result (λ l. Lists line.now l) (λ reason. NoMonomial reason × ((l : Listed) → Lists line.now l → ⊥)) }
{
    let Some((word, rest)) = line.split_once(' ') else {
        return Err(Ground::Line);
    };
    match word {
        "stair" => Ok(Listed {
            exponents: pair(rest)?,
            verdict: Verdict::Stair,
        }),
        "rel" => Ok(Listed {
            exponents: relation(rest)?,
            verdict: Verdict::Relation,
        }),
        _ => Err(Ground::Line),
    }
}
