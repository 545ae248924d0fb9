// Periods as a list.
ghost use Rattle.std.specs.Prelude.{◌≡◌, length, MatchResult};
ghost use Rattle.records.specs.Periods.{periods_of, SomeToFour};

use crate::period::PeriodRecord;

// The periods are not one to four.
#[derive(Clone, Copy, PartialEq, Eq, Debug)]
pub struct NotOneToFour;

impl TryFrom<&[u16]> for PeriodRecord {
    type Error = NotOneToFour;

    ghost try_from_gives = { λ periods r. MatchResult r (λ made. SomeToFour (length periods.now) × (periods_of made ≡ periods.now)) (λ _. SomeToFour (length periods.now) → ⊥) };

    fn try_from(periods: &[u16]) -> Result<PeriodRecord, NotOneToFour> {
        match periods {
            [a] => Ok(PeriodRecord::One([*a])),
            [a, b] => Ok(PeriodRecord::Two([*a, *b])),
            [a, b, c] => Ok(PeriodRecord::Three([*a, *b, *c])),
            [a, b, c, d] => Ok(PeriodRecord::Four([*a, *b, *c, *d])),
            _ => Err(NotOneToFour),
        }
    }
}

impl PeriodRecord {
    // The periods, in their order.
    pub fn as_slice(&self) -> &[u16]
        ensures value { result.now ≡ periods_of self.now }
        ensures some_to_four { SomeToFour (length result.now) }
    {
        match self {
            PeriodRecord::One(periods) => periods,
            PeriodRecord::Two(periods) => periods,
            PeriodRecord::Three(periods) => periods,
            PeriodRecord::Four(periods) => periods,
        }
    }
}
