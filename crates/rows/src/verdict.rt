// What a monomial was judged to be: one of the staircase, or the lead of a relation.
#[derive(Clone, Copy, PartialEq, Eq, Debug)]
pub enum Verdict {
    Stair,
    Relation,
}
