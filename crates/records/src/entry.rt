// What a record says, by its kind.
use crate::period::PeriodRecord;
use monomials::Monomial;

// The field: the residues by a modulus, or the binary field of a degree.
#[derive(Clone, Copy, PartialEq, Eq, Debug)]
pub enum FieldRecord {
    Modulus(u16),
    Degree(u16),
}

// The order: lexicographic, graded, or weighted over the lexicographic order with four weights.
#[derive(Clone, Copy, PartialEq, Eq, Debug)]
pub enum OrderRecord {
    Lexicographic,
    Graded,
    Weighted([u16; 4]),
}

// A cell: its coordinates, as exponents, and its code.
#[derive(Clone, Copy, PartialEq, Eq, Debug)]
pub struct CellRecord {
    pub coordinates: Monomial,
    pub code: u16,
}

// An entry: what one record says.
#[derive(Clone, Copy, PartialEq, Eq, Debug)]
pub enum Entry {
    Field(FieldRecord),
    Order(OrderRecord),
    Period(PeriodRecord),
    Cell(CellRecord),
}
