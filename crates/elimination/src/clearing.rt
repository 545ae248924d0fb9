// An image is cleared at the pivots of stairs.
ghost use Rattle.std.specs.Prelude.{◌≡◌, ℕ, ◌<◌, min, slice_index};
ghost use Rattle.elimination.specs.Clearings.{Cleared, PassedOver, ClearsAt, Eliminated, NothingAt};

use crate::multiples::{add_multiple, clearing_factor};
use fields::Field;
use rows::{Line, Verdict};

// How many stairs have a place in a combination.
const PLACES: usize = 64;

// The factor by which the line is added to clear an image at the line's pivot; where the line has nothing to clear by it is 0,
// a factor that adds nothing, and no absence.
fn pivot_factor<F: Field>(field: &F, line: &Line, image: &[u16; 64]) -> u16
    ensures clears { ClearsAt (F.Field.arithmetic field.now) line.now image.now result }
    ensures nothing { NothingAt (F.Field.arithmetic field.now) line.now → result ≡ 0 }
{
    let pivot = usize::from(line.pivot);
    if pivot >= 64 {
        return 0;
    }
    clearing_factor(field, image[pivot], line.image[pivot]).unwrap_or(0)
}

// Clears the image at the line's pivot, and does the same to the combination, with the factor at the line's own place.
// Six parameters: they travel together in this one call only.
fn eliminate<F: Field>(
    field: &F,
    line: &Line,
    place: usize,
    width: usize,
    image: &mut [u16; 64],
    combination: &mut [u16; 64],
)
    requires { place < 64 }
    ensures eliminated { (x : ℕ) × Eliminated (F.Field.arithmetic field.now) (min width 64) place line.now image.old combination.old image.new combination.new x }
    ensures passed { NothingAt (F.Field.arithmetic field.now) line.now → slice_index combination.new place ≡ 0 }
{
    let factor = pivot_factor(field, line, image);
    add_multiple(field, image, &line.image, factor, width);
    add_multiple(field, combination, &line.combination, factor, place);
    combination[place] = factor;
}

// Clears the image at the pivots of the stairs among the lines, one after the other, and answers the codes by which
// the stairs were added. Stairs past the last place have no place for a code, and are passed over.
pub fn clear<F: Field>(field: &F, lines: &[Line], width: usize, image: &mut [u16; 64]) -> [u16; 64]
    ensures cleared { Cleared (F.Field.arithmetic field.now) (min width 64) lines.now image.old image.new result }
    ensures passed { PassedOver (F.Field.arithmetic field.now) (min width 64) lines.now image.old image.new result }
{
    let mut combination = [0; 64];
    // counted by hand: as a chain of `filter`, `take` and `enumerate` the loop takes no invariant (`iterator-loop-place` does not check)
    let mut place = 0;
    for line in lines {
        if let Verdict::Stair = line.verdict {
            if place < PLACES {
                eliminate(field, line, place, width, image, &mut combination);
            }
            place += 1;
        }
    }
    combination
}
