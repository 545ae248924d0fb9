// The record that says an entry.
ghost use Rattle.records.specs.Format.{Says, SaysField, SaysOrder, SaysPeriod, SaysCell};

use crate::entry::{CellRecord, Entry, FieldRecord, OrderRecord};
use crate::period::PeriodRecord;
use crate::record::Record;

// The subkind and the numbers that say a field.
fn say_field(field: FieldRecord) -> (u8, [u16; 5])
    ensures { SaysField result.0 result.1 field }
{
    match field {
        FieldRecord::Modulus(modulus) => (0, [modulus, 0, 0, 0, 0]),
        FieldRecord::Degree(degree) => (1, [degree, 0, 0, 0, 0]),
    }
}

// The subkind and the numbers that say an order.
fn say_order(order: OrderRecord) -> (u8, [u16; 5])
    ensures { SaysOrder result.0 result.1 order }
{
    match order {
        OrderRecord::Lexicographic => (0, [0; 5]),
        OrderRecord::Graded => (1, [0; 5]),
        OrderRecord::Weighted(weights) => {
            let [a, b, c, d] = weights;
            (2, [a, b, c, d, 0])
        }
    }
}

// The subkind and the numbers that say periods.
fn say_period(period: PeriodRecord) -> (u8, [u16; 5])
    ensures { SaysPeriod result.0 result.1 period }
{
    match period {
        PeriodRecord::One(p) => (1, [p[0], 0, 0, 0, 0]),
        PeriodRecord::Two(p) => (2, [p[0], p[1], 0, 0, 0]),
        PeriodRecord::Three(p) => (3, [p[0], p[1], p[2], 0, 0]),
        PeriodRecord::Four(p) => (4, [p[0], p[1], p[2], p[3], 0]),
    }
}

// The subkind and the numbers that say a cell.
fn say_cell(cell: CellRecord) -> (u8, [u16; 5])
    ensures { SaysCell result.0 result.1 cell }
{
    let [a, b, c, d] = cell.coordinates.exponents;
    (0, [a, b, c, d, cell.code])
}

impl From<Entry> for Record {
    ghost from_gives = { λ said r. Says r said };

    fn from(said: Entry) -> Record {
        let (kind, (subkind, numbers)) = match said {
            Entry::Field(field) => (1, say_field(field)),
            Entry::Order(order) => (2, say_order(order)),
            Entry::Period(period) => (3, say_period(period)),
            Entry::Cell(cell) => (4, say_cell(cell)),
        };
        Record {
            kind,
            subkind,
            numbers,
        }
    }
}
