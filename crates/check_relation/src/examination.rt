// A claim examined: the field, then the pattern or the points, then the polynomial; the first refusal ends it.
ghost use Rattle.std.specs.Prelude.{◌≡◌, MatchResult};
ghost use Rattle.faults.specs.declared.arithmetic.ArithmeticFault.TheVariants.{Unlisted};
ghost use Rattle.faults.specs.declared.subject.SubjectFault.TheVariants.{Arithmetic};
ghost use Rattle.check_relation.specs.Examined.{Examined, PatternExamined, PointsExamined};

use faults::{SubjectFault, WorksheetFault};
use fields::ListedField;
use polynomials::Term;
use subjects::{Finding, PeriodicArray, PointSet, check};

// The field that a number names; a fault of arithmetic becomes one of the subject.
fn field_named<F: ListedField + Drop>(number: u16) -> Result<F, SubjectFault>
    ensures { MatchResult result (λ field. (F.Field.arithmetic field ≡ F.ListedField.named number) × F.ListedField.listed number) (λ e. (e ≡ Arithmetic Unlisted) × (F.ListedField.listed number → ⊥)) }
{
    Ok(F::new(number)?)
}

// Whether the polynomial annihilates the pattern of these periods and cells, over the field that the number names.
pub fn examine_pattern<'a, F: ListedField + Drop>(
    number: u16,
    periods: &'a [u16],
    cells: &'a [u16],
    terms: &[Term],
) -> Result<Finding, WorksheetFault>
    ensures { Examined (F.ListedField.listed number) (PatternExamined (F.ListedField.named number) periods.now cells.now terms.now) result }
{
    let field = field_named::<F>(number)?;
    let array = PeriodicArray::new(&field, periods, cells)?;
    check(&array, &field, terms)
}

// Whether the polynomial annihilates the points with these coordinates, over the field that the number names.
pub fn examine_points<F: ListedField + Drop>(
    number: u16,
    variables: usize,
    points: usize,
    coordinates: &[u16],
    terms: &[Term],
) -> Result<Finding, WorksheetFault>
    ensures { Examined (F.ListedField.listed number) (PointsExamined (F.ListedField.named number) variables points coordinates.now terms.now) result }
{
    let field = field_named::<F>(number)?;
    let set = PointSet::new(&field, variables, points, coordinates)?;
    check(&set, &field, terms)
}
