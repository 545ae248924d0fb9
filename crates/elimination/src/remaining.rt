// The remainder of a polynomial.
ghost use Rattle.std.specs.Prelude.{◌≡◌, ℕ, ◌<◌, length, slice_index};
ghost use Rattle.elimination.specs.Remainders.{RemainderOf};
ghost use Rattle.polynomials.specs.Terms.{poly};

use crate::clearing::clear;
use crate::images::polynomial_images;
use fields::Field;
use polynomials::Term;
use rows::Line;
use subjects::Subject;

// The code at a place, and 0 past the last.
fn code_at(codes: &[u16; 64], place: usize) -> u16
    ensures { result ≡ slice_index codes.now place }
{
    codes.get(place).copied().unwrap_or(0)
}

// Writes the negatives of the codes that were added.
fn write_negatives<F: Field>(field: &F, added: &[u16; 64], codes: &mut [u16])
    ensures { (j : ℕ) → j < length codes.new → slice_index codes.new j ≡ (F.Field.arithmetic field.now).negative (slice_index added.now j) }
{
    for (j, code) in codes.iter_mut().enumerate() {
        *code = field.negative(code_at(added, j));
    }
}

// Writes the codes of the combination of stairs that differs from the polynomial by an annihilator, one code for each stair.
// Clearing adds a combination of stairs that makes the polynomial one; so the remainder's codes are the negatives.
pub fn remainder_codes<S: Subject, F: Field>(
    subject: &S,
    field: &F,
    lines: &[Line],
    terms: &[Term],
    codes: &mut [u16],
)
    ensures below { (j : ℕ) → j < length codes.new → slice_index codes.new j < (F.Field.arithmetic field.now).order }
    ensures remains { RemainderOf (S.Subject.meaning subject.now) (F.Field.arithmetic field.now) lines.now (poly terms.now) codes.new }
{
    let mut image = polynomial_images(subject, field, terms);
    let added = clear(field, lines, subject.width(), &mut image);
    write_negatives(field, &added, codes);
}
