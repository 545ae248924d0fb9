// What a record says: nothing where its kind or subkind is not listed, or a number that it does not use is not 0.
ghost use Rattle.std.specs.Prelude.{MatchOption, MatchResult};
ghost use Rattle.records.specs.Format.{SaysField, SaysOrder, SaysPeriod, SaysCell, Says};
ghost use Rattle.records.specs.declared.entry.Entry.{Entry};
ghost use Rattle.records.specs.declared.entry.FieldRecord.{FieldRecord};
ghost use Rattle.records.specs.declared.entry.OrderRecord.{OrderRecord};
ghost use Rattle.records.specs.declared.period.PeriodRecord.{PeriodRecord};
ghost use Rattle.records.specs.declared.entry.CellRecord.{CellRecord};

use crate::entry::{CellRecord, Entry, FieldRecord, OrderRecord};
use crate::period::PeriodRecord;
use crate::record::Record;
use monomials::Monomial;

// The field that a record of that kind says.
fn field_record(held: Record) -> Option<FieldRecord>
    ensures { MatchOption result ((f : FieldRecord) → SaysField held.subkind held.numbers f → ⊥) (SaysField held.subkind held.numbers) }
{
    let numbers = held.numbers;
    match (held.subkind, numbers) {
        (0, [modulus, 0, 0, 0, 0]) => Some(FieldRecord::Modulus(modulus)),
        (1, [degree, 0, 0, 0, 0]) => Some(FieldRecord::Degree(degree)),
        _ => None,
    }
}

// The order that a record of that kind says.
fn order_record(held: Record) -> Option<OrderRecord>
    ensures { MatchOption result ((o : OrderRecord) → SaysOrder held.subkind held.numbers o → ⊥) (SaysOrder held.subkind held.numbers) }
{
    let numbers = held.numbers;
    match (held.subkind, numbers) {
        (0, [0, 0, 0, 0, 0]) => Some(OrderRecord::Lexicographic),
        (1, [0, 0, 0, 0, 0]) => Some(OrderRecord::Graded),
        (2, [a, b, c, d, 0]) => Some(OrderRecord::Weighted([a, b, c, d])),
        _ => None,
    }
}

// The periods that a record of that kind says.
fn period_record(held: Record) -> Option<PeriodRecord>
    ensures { MatchOption result ((p : PeriodRecord) → SaysPeriod held.subkind held.numbers p → ⊥) (SaysPeriod held.subkind held.numbers) }
{
    let numbers = held.numbers;
    match (held.subkind, numbers) {
        (1, [a, 0, 0, 0, 0]) => Some(PeriodRecord::One([a])),
        (2, [a, b, 0, 0, 0]) => Some(PeriodRecord::Two([a, b])),
        (3, [a, b, c, 0, 0]) => Some(PeriodRecord::Three([a, b, c])),
        (4, [a, b, c, d, 0]) => Some(PeriodRecord::Four([a, b, c, d])),
        _ => None,
    }
}

// The cell that a record of that kind says.
fn cell_record(held: Record) -> Option<CellRecord>
    ensures { MatchOption result ((c : CellRecord) → SaysCell held.subkind held.numbers c → ⊥) (SaysCell held.subkind held.numbers) }
{
    let numbers = held.numbers;
    match (held.subkind, numbers) {
        (0, [a, b, c, d, code]) => Some(CellRecord {
            coordinates: Monomial {
                exponents: [a, b, c, d],
            },
            code,
        }),
        _ => None,
    }
}

// The record says nothing.
#[derive(Clone, Copy, PartialEq, Eq, Debug)]
pub struct SaysNothing;

impl TryFrom<Record> for Entry {
    type Error = SaysNothing;

    ghost try_from_gives = { λ held r. MatchResult r (Says held) (λ _. (e : Entry) → Says held e → ⊥) };

    fn try_from(held: Record) -> Result<Entry, SaysNothing> {
        let said = match held.kind {
            1 => field_record(held).map(Entry::Field),
            2 => order_record(held).map(Entry::Order),
            3 => period_record(held).map(Entry::Period),
            4 => cell_record(held).map(Entry::Cell),
            _ => None,
        };
        said.ok_or(SaysNothing)
    }
}
