// The field, the order and the periods that the records mean; a fault from below stays whole, and the record is put beside it.
ghost use Rattle.std.specs.Prelude.{◌≡◌, ℕ, MatchResult};
ghost use Rattle.faults.specs.declared.arithmetic.ArithmeticFault.TheVariants.{Unlisted, Weight};
ghost use Rattle.faults.specs.declared.subject.SubjectFault.TheVariants.{Arithmetic, Period};
ghost use Rattle.faults.specs.Places.{FirstAt};
ghost use Rattle.records.specs.Periods.{periods_of};
ghost use Rattle.subjects.specs.ArrayGrounds.{PeriodFault};
ghost use Rattle.patterns.specs.Plans.{field_meant, field_of, FieldListed, order_meant, order_of, WeightsAdmitted, WeightFault, WidthOf, Plans};

use crate::plan::{FieldKind, OrderKind, Plan};
use crate::refusing::of_record;
use crate::singles::Singles;
use faults::{RecordFault, SubjectFault};
use fields::{Binary, ListedField, Residue};
use monomials::Weights;
use records::{FieldRecord, OrderRecord, PeriodRecord};
use subjects::count_cells;

// The field of a record; a fault of arithmetic becomes one of the subject.
fn field(held: FieldRecord) -> Result<FieldKind, SubjectFault>
    ensures { MatchResult result (λ made. FieldListed held × (field_of made ≡ field_meant held)) (λ e. (e ≡ Arithmetic Unlisted) × (FieldListed held → ⊥)) }
{
    match held {
        FieldRecord::Modulus(modulus) => Ok(FieldKind::Residues(Residue::new(modulus)?)),
        FieldRecord::Degree(degree) => Ok(FieldKind::Binary(Binary::new(degree)?)),
    }
}

// The order of a record.
fn order(held: OrderRecord) -> Result<OrderKind, SubjectFault>
    ensures { MatchResult result (λ made. WeightsAdmitted held × (order_of made ≡ order_meant held)) (λ e. ((k : ℕ) × (e ≡ Arithmetic (Weight k)) × WeightFault held k)) }
{
    match held {
        OrderRecord::Lexicographic => Ok(OrderKind::Lexicographic),
        OrderRecord::Graded => Ok(OrderKind::Graded),
        OrderRecord::Weighted(weights) => Ok(OrderKind::Weighted(Weights::new(weights)?)),
    }
}

// The number of cells of the period of a record.
fn cells(held: &PeriodRecord) -> Result<usize, SubjectFault>
    ensures { MatchResult result (WidthOf (periods_of held.now)) (λ e. ((axis : ℕ) × (e ≡ Period axis) × FirstAt (PeriodFault (periods_of held.now)) axis)) }
{
    count_cells(held.as_slice())
}

// The field, then the order, then the periods; the first refusal ends it.
pub(crate) fn plan(singles: &Singles) -> Result<Plan, RecordFault>
    ensures { Plans singles.now result }
{
    let field = of_record(singles.field.place, field(singles.field.value))?;
    let order = of_record(singles.order.place, order(singles.order.value))?;
    let periods = singles.period.value;
    let width = of_record(singles.period.place, cells(&periods))?;
    Ok(Plan {
        field,
        order,
        periods,
        width,
    })
}
