// Of which kind an entry is.
ghost use Rattle.std.specs.Prelude.{◌≡◌};
ghost use Rattle.records.specs.Kinds.{kind_of};

use crate::entry::Entry;

// The kinds of entries.
#[derive(Clone, Copy, PartialEq, Eq, Debug)]
pub enum Kind {
    Field,
    Order,
    Period,
    Cell,
}

impl Entry {
    // The kind of the entry.
    pub fn kind(&self) -> Kind
        ensures { result ≡ kind_of self.now }
    {
        match self {
            Entry::Field(_) => Kind::Field,
            Entry::Order(_) => Kind::Order,
            Entry::Period(_) => Kind::Period,
            Entry::Cell(_) => Kind::Cell,
        }
    }
}
