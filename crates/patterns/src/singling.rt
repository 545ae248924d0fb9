// The records that come once, found among the entries.
ghost use Rattle.std.specs.Prelude.{◌≡◌, ℕ, ◌<◌, Some, None, length, Decides, MatchOption};
ghost use Rattle.std.specs.Fn.{FnReturnsAt};
ghost use Rattle.faults.specs.Places.{Searched};
ghost use Rattle.patterns.specs.Files.{entry};
ghost use Rattle.patterns.specs.Singles.{ComesAgain, Repeats, SingleOut};

use crate::refusing::fault_at;
use crate::singles::{Placed, Singles};
use faults::{FileFault, RecordFault};
use records::{Entry, Kind};

// Whether a kind comes once only, and a record before the place is of it.
fn comes_again(entries: &[Entry], kind: Kind, place: usize) -> bool
    ensures { Decides result (ComesAgain entries.now kind place) }
{
    kind != Kind::Cell
        && entries
            .iter()
            .take(place)
            .any(|before| before.kind() == kind)
}

// The first record, but for cells, that is not the first of its kind.
fn first_repeat(entries: &[Entry]) -> Option<usize>
    ensures { Searched (Repeats entries.now) result }
{
    entries
        .iter()
        .enumerate()
        .position(|(place, entry)| comes_again(entries, entry.kind(), place))
}

// The first record that says a value of one sort, as the closure picks it.
fn first_that_says<T, F: Fn(&Entry) -> Option<T>>(
    entries: &[Entry],
    value_in: F,
) -> Option<Placed<T>>
    requires { F.IsAlwaysCallable value_in }
    ensures { MatchOption result ((i : ℕ) → i < length entries.now → FnReturnsAt F.Fn value_in (entry entries.now i) None) (λ found. (found.place < length entries.now) × FnReturnsAt F.Fn value_in (entry entries.now found.place) (Some found.value)) }
{
    entries.iter().enumerate().find_map(|(place, entry)| {
        let value = value_in(entry)?;
        Some(Placed { place, value })
    })
}

// The records that come once; refused where one comes twice, or else is missing.
pub(crate) fn single_out(entries: &[Entry]) -> Result<Singles, RecordFault>
    ensures { SingleOut entries.now result }
{
    if let Some(second) = first_repeat(entries) {
        return Err(fault_at(second, FileFault::Single));
    }
    let missing = fault_at(entries.len(), FileFault::Single);
    let field = first_that_says(entries, |entry| match *entry {
        Entry::Field(field) => Some(field),
        _ => None,
    });
    let order = first_that_says(entries, |entry| match *entry {
        Entry::Order(order) => Some(order),
        _ => None,
    });
    let period = first_that_says(entries, |entry| match *entry {
        Entry::Period(period) => Some(period),
        _ => None,
    });
    Ok(Singles {
        field: field.ok_or(missing)?,
        order: order.ok_or(missing)?,
        period: period.ok_or(missing)?,
    })
}
