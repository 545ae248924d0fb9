// The line of a monomial.
ghost use Rattle.std.specs.Prelude.{◌≡◌, [], ◌∷◌, ◌++◌};
ghost use Rattle.elimination.specs.Echelons.{Echelon};
ghost use Rattle.rows.specs.Lines.{AllStand, Says, Stands};

use crate::clearing::clear;
use crate::images::{first_code, image_of};
use fields::Field;
use monomials::Monomial;
use rows::{Line, Verdict};
use subjects::Subject;

// The line of these parts, judged by the image: a stair with the first code that is not zero as its pivot, or a relation.
fn judged(monomial: Monomial, combination: [u16; 64], image: [u16; 64]) -> Line
    ensures monomial { result.monomial ≡ monomial }
    ensures combination { result.combination ≡ combination }
    ensures image { result.image ≡ image }
    ensures says { Says result.verdict result }
{
    let (verdict, pivot) = match first_code(&image) {
        Some(position) => (Verdict::Stair, position as u8),
        None => (Verdict::Relation, 64),
    };
    Line {
        monomial,
        verdict,
        combination,
        image,
        pivot,
    }
}

// The line of the monomial after the lines before it: it stands where they do, and keeps their echelon form.
pub fn line_of<S: Subject, F: Field>(
    subject: &S,
    field: &F,
    before: &[Line],
    monomial: Monomial,
) -> Line
    ensures own { result.monomial ≡ monomial }
    ensures stands { AllStand (S.Subject.meaning subject.now) (F.Field.arithmetic field.now) before.now → Stands (S.Subject.meaning subject.now) (F.Field.arithmetic field.now) before.now result }
    ensures echelon { Echelon (S.Subject.meaning subject.now).width (F.Field.arithmetic field.now).order before.now → Echelon (S.Subject.meaning subject.now).width (F.Field.arithmetic field.now).order (before.now ++ result ∷ []) }
{
    let mut image = image_of(subject, field, &monomial);
    let combination = clear(field, before, subject.width(), &mut image);
    judged(monomial, combination, image)
}
