// What stands where a table of entries has room and no record.
ghost use Rattle.std.specs.Prelude.{◌≡◌};
ghost use Rattle.records.specs.declared.entry.Entry.TheVariants.{Order};
ghost use Rattle.records.specs.declared.entry.OrderRecord.TheVariants.{Lexicographic};

use crate::entry::{Entry, OrderRecord};

impl Default for Entry {
    ghost is_default = { λ e. e ≡ Order Lexicographic };

    fn default() -> Entry {
        Entry::Order(OrderRecord::Lexicographic)
    }
}
