// A place of the border: the product of a stair, by its number, by a variable.
#[derive(Clone, Copy)]
pub struct Place {
    pub variable: usize,
    pub stair: usize,
}
