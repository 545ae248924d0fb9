// What a file means beside its cells: a field, an order and the periods.
use fields::{Binary, Residue};
use monomials::Weights;
use records::PeriodRecord;

// The field of a plan: residues by a modulus, or a binary field.
#[derive(Clone, Copy)]
pub enum FieldKind {
    Residues(Residue),
    Binary(Binary),
}

// The order of a plan; the weights stand over the lexicographic order.
#[derive(Clone, Copy)]
pub enum OrderKind {
    Lexicographic,
    Graded,
    Weighted(Weights),
}

// What a file means beside its cells; the width is the number of cells of the period.
#[derive(Clone, Copy)]
pub struct Plan {
    pub field: FieldKind,
    pub order: OrderKind,
    pub periods: PeriodRecord,
    pub width: usize,
}
