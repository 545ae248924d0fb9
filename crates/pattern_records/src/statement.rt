// What a keyword says with its numbers.
ghost use Rattle.std.specs.Option.{MatchOption};
ghost use Rattle.records.specs.declared.entry.Entry.{Entry};
ghost use Rattle.pattern_records.specs.Statements.{Stands};

use crate::keyword::Keyword;
use records::{Entry, FieldRecord, OrderRecord, PeriodRecord};

// The entry that a keyword stands for with its numbers; none where there are too few or too many, and none for cells.
pub fn stated(keyword: Keyword, numbers: &[u16]) -> Option<Entry>
    ensures { MatchOption result ((e : Entry) → Stands keyword numbers.now e → ⊥) (Stands keyword numbers.now) }
{
    match (keyword, numbers) {
        (Keyword::Modulus, [modulus]) => Some(Entry::Field(FieldRecord::Modulus(*modulus))),
        (Keyword::Degree, [degree]) => Some(Entry::Field(FieldRecord::Degree(*degree))),
        (Keyword::Lexicographic, []) => Some(Entry::Order(OrderRecord::Lexicographic)),
        (Keyword::Graded, []) => Some(Entry::Order(OrderRecord::Graded)),
        (Keyword::Weighted, [a, b, c, d]) => {
            Some(Entry::Order(OrderRecord::Weighted([*a, *b, *c, *d])))
        }
        (Keyword::Period, periods) => PeriodRecord::try_from(periods).ok().map(Entry::Period),
        _ => None,
    }
}
