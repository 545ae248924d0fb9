// The periods of a pattern, one to four of them.
#[derive(Clone, Copy, PartialEq, Eq, Debug)]
pub enum PeriodRecord {
    One([u16; 1]),
    Two([u16; 2]),
    Three([u16; 3]),
    Four([u16; 4]),
}
