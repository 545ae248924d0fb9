// A point set: the coordinates are lent, point after point, and only read.
ghost use Rattle.std.specs.Prelude.{◌≡◌, ◌*◌, ◌<◌, ◌≤◌, [], ◌∷◌, length, MatchResult};
ghost use Rattle.monomials.specs.Monomials.{mono};
ghost use Rattle.polynomials.specs.Points.{points_meaning, point_at, monomial_value, polynomial_value, ValuesEvaluate, AnnihilatorsVanish};
ghost use Rattle.polynomials.specs.Terms.{poly};
ghost use Rattle.polynomials.proofs.Points.{points_laws};
ghost use Rattle.subjects.specs.PointGrounds.{PointsAdmitted, PointsRefused};

use crate::checking::polynomial_image;
use crate::subject::{MOST_VARIABLES, Subject};
use faults::SubjectFault;
use fields::{Field, first_outside, power};
use monomials::Monomial;
use polynomials::Term;

// The most points.
const MOST_POINTS: usize = 64;

#[derive(Clone, Copy)]
pub struct PointSet<'a> {
    variables: usize,
    points: usize,
    coordinates: &'a [u16],
    ghost some: { 1 ≤ variables },
    ghost few: { variables ≤ 4 },
    ghost narrow: { points ≤ 64 },
    ghost full: { length coordinates.now ≡ variables * points },
}

// The value of a monomial at a point.
fn monomial_value<F: Field>(field: &F, point: &[u16], monomial: &Monomial) -> u16
    requires { length point.now ≤ 4 }
    ensures { result ≡ monomial_value (F.Field.arithmetic field.now) point.now (mono monomial.now.exponents) }
{
    let mut value = 1;
    for (variable, coordinate) in point.iter().enumerate() {
        let factor = power(field, *coordinate, monomial.exponents[variable]);
        value = field.product(value, factor);
    }
    value
}

impl<'a> PointSet<'a> {
    // The set of one point, with the one coordinate 1.
    pub fn unit() -> PointSet<'a>
        ensures { (result.variables ≡ 1) × (result.points ≡ 1) × (result.coordinates.now ≡ 1 ∷ []) }
    {
        PointSet {
            variables: 1,
            points: 1,
            coordinates: &[1],
        }
    }

    // The set of these points, of as many coordinates as there are variables; refused where the coordinates do not fit
    // these numbers or the field.
    pub fn new<F: Field>(
        field: &F,
        variables: usize,
        points: usize,
        coordinates: &'a [u16],
    ) -> Result<PointSet<'a>, SubjectFault>
        ensures { MatchResult result (λ set. PointsAdmitted (F.Field.arithmetic field.now).order variables points coordinates.now × (set.variables ≡ variables) × (set.points ≡ points) × (set.coordinates.now ≡ coordinates.now)) (PointsRefused (F.Field.arithmetic field.now).order variables points coordinates.now) }
    {
        if variables == 0 || variables > MOST_VARIABLES {
            return Err(SubjectFault::Variables);
        }
        if points == 0 || points > MOST_POINTS {
            return Err(SubjectFault::Points);
        }
        if coordinates.len() != variables * points {
            return Err(SubjectFault::Count);
        }
        if let Some(coordinate) = first_outside(field, coordinates) {
            return Err(SubjectFault::Code(coordinate));
        }
        Ok(PointSet {
            variables,
            points,
            coordinates,
        })
    }

    // Makes this the set of these points, of as many coordinates as there are variables. Where the coordinates do not fit
    // these numbers or the field, they are refused, and the set stays as it was.
    pub fn set<F: Field>(
        &mut self,
        field: &F,
        variables: usize,
        points: usize,
        coordinates: &'a [u16],
    ) -> Result<(), SubjectFault>
        ensures answer { MatchResult result (λ _. PointsAdmitted (F.Field.arithmetic field.now).order variables points coordinates.now) (PointsRefused (F.Field.arithmetic field.now).order variables points coordinates.now) }
        ensures after { MatchResult result (λ _. (self.new.variables ≡ variables) × (self.new.points ≡ points) × (self.new.coordinates.now ≡ coordinates.now)) (λ _. self.new ≡ self.old) }
    {
        *self = PointSet::new(field, variables, points, coordinates)?;
        Ok(())
    }

    // The coordinates of the point of this number.
    fn point(&self, number: usize) -> &'a [u16]
        requires { number < self.now.points }
        ensures is { result.now ≡ point_at self.now.variables self.now.coordinates.now number }
        ensures few { length result.now ≤ 4 }
    {
        let start = number * self.variables;
        &self.coordinates[start..start + self.variables]
    }

    // The value of the polynomial at the point of this number, and 0 past the points. It is what evaluation at the point gives,
    // and the annihilators of the set are exactly the polynomials that vanish at every point.
    pub fn value_at<F: Field>(&self, field: &F, terms: &[Term], point: usize) -> u16
        ensures value { point < self.now.points → result ≡ polynomial_value (F.Field.arithmetic field.now) (point_at self.now.variables self.now.coordinates.now point) (poly terms.now) }
        ensures past { self.now.points ≤ point → result ≡ 0 }
        ensures evaluation { ValuesEvaluate self.now.variables self.now.points self.now.coordinates.now }
        ensures vanishing { AnnihilatorsVanish self.now.variables self.now.points self.now.coordinates.now }
    {
        polynomial_image(self, field, terms, point)
    }
}

impl<'a> Subject for PointSet<'a> {
    ghost meaning = { λ set. points_meaning set.variables set.points set.coordinates.now };

    ghost laws = { λ set. points_laws set.variables set.points set.coordinates.now set.some set.few set.narrow };

    fn variables(&self) -> usize {
        self.variables
    }

    fn width(&self) -> usize {
        self.points
    }

    // A coordinate not below the field's order counts as its remainder.
    fn image<F: Field>(&self, field: &F, monomial: &Monomial, position: usize) -> u16 {
        if position >= self.points {
            // the code past the points, as the trait has it
            return 0;
        }
        monomial_value(field, self.point(position), monomial)
    }
}
