// A whole listing, read line by line.
ghost use Rattle.std.specs.Prelude.{ℕ, List, IfOk, MatchResult};
ghost use Rattle.std.specs.Iterator.{AlwaysYields};
ghost use Rattle.std.specs.Str.Iter.{lines_steps};
ghost use Rattle.std.specs.Str.Lines.{lines};
ghost use Rattle.show_staircase.specs.Readings.{AllDrawn, ListsUpToScore, IsListing};
ghost use Rattle.show_staircase.specs.Misreadings.{Unless, MisreadsBelow, Misreads};

use crate::entries::entry;
use crate::grounds::{Ground, Misread, ReadError};
use crate::marks::Listed;
use crate::words::is_counting;
use std::alloc::Global;
use std::str::Lines;

// The monomials that the lines below a heading list up to the score, which is the last of them. The heading is line 1, and each line
// before the score lists one monomial, so their number tells the line.
fn monomials(heap: Global, below: Lines) -> Result<Vec<Listed>, ReadError>
    ensures { (texts : List (List ℕ)) → AlwaysYields lines_steps (λ line. line.now) below.entry texts → MatchResult result (λ listed. ListsUpToScore texts listed.items) (Unless (MisreadsBelow texts)) }
{
    let mut listed = Vec::new(heap);
    let mut scored = false;
    for line in below {
        if scored {
            return Err(Misread::at(listed.len() + 3, Ground::Ended).into());
        }
        if is_counting(line, "score") {
            scored = true;
        } else {
            match entry(line) {
                Ok(monomial) => listed.push(monomial)?,
                Err(ground) => return Err(Misread::at(listed.len() + 2, ground).into()),
            }
        }
    }
    if !scored {
        return Err(Misread::at(listed.len() + 1, Ground::Unended).into());
    }
    if listed.is_empty() {
        return Err(Misread::at(2, Ground::Unlisted).into());
    }
    Ok(listed)
}

// The monomials that a listing lists.
pub fn read(heap: Global, text: &str) -> Result<Vec<Listed>, ReadError>
    ensures listing { MatchResult result (λ listed. IsListing (lines text.now) listed.items) (Unless (Misreads (lines text.now))) }
    ensures drawn { IfOk result (λ listed. AllDrawn listed.items) }
{
    let mut lines = text.lines();
    match lines.next() {
        Some(heading) if is_counting(heading, "judged") => monomials(heap, lines),
        _ => Err(Misread::at(1, Ground::Heading).into()),
    }
}
