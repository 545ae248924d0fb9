// A pattern as numbers name it, since C passes numbers.

// The kind of its field with the modulus or the degree, the number of its order, its periods and its cells.
#[derive(Clone, Copy)]
pub(crate) struct Pattern<'a> {
    pub(crate) kind: u16,
    pub(crate) size: u16,
    pub(crate) order: u16,
    pub(crate) periods: &'a [u16],
    pub(crate) cells: &'a [u16],
}
