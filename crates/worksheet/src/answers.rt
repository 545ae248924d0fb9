// What the worksheet answers.

// Why a run ended.
#[derive(Clone, Copy, PartialEq, Eq, Debug)]
pub enum Ending {
    // nothing waits
    Finished,
    // a monomial waits, and no lent line is unused
    Full,
}

// Of a run: how many monomials it judged, and why it ended.
#[derive(Clone, Copy, PartialEq, Eq, Debug)]
pub struct Ran {
    pub judged: usize,
    pub ending: Ending,
}

// Of the whole sheet, where finished is a flag that no value hangs on: how many lines are judged, how many of them are stairs and relations, and whether nothing waits.
#[derive(Clone, Copy, PartialEq, Eq, Debug)]
pub struct Summary {
    pub judged: usize,
    pub stairs: usize,
    pub relations: usize,
    pub finished: bool,
}
