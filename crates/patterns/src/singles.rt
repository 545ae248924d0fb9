// The field, order and period records: each comes once.
use records::{FieldRecord, OrderRecord, PeriodRecord};

// A record among the entries: where it stands, and what it says.
#[derive(Clone, Copy, PartialEq, Eq, Debug)]
pub struct Placed<T> {
    pub place: usize,
    pub value: T,
}

// The field, order and period records.
#[derive(Clone, Copy, PartialEq, Eq, Debug)]
pub struct Singles {
    pub field: Placed<FieldRecord>,
    pub order: Placed<OrderRecord>,
    pub period: Placed<PeriodRecord>,
}
