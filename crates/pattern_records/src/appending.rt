// The bytes of entries.
ghost use Rattle.std.specs.Prelude.{◌≡◌, IfOk, MatchResult};
ghost use Rattle.pattern_records.specs.Bytes.{Appended, Holds};

use records::{Entry, Record};
use std::alloc::{AllocError, Global};

// Puts the record that says an entry after the bytes.
pub fn append(bytes: &mut Vec<u8>, entry: &Entry) -> Result<(), AllocError>
    ensures { MatchResult result (λ _. Appended bytes.old.items entry.now bytes.new.items) (λ _. bytes.new.items ≡ bytes.old.items) }
{
    let record = Record::from(*entry).to_bytes();
    bytes.extend_from_slice(&record)
}

// The records that say the entries, in their order.
pub fn records_of(heap: Global, entries: &[Entry]) -> Result<Vec<u8>, AllocError>
    ensures { IfOk result (λ bytes. Holds bytes.items entries.now) }
{
    let mut bytes = Vec::new(heap);
    for entry in entries {
        append(&mut bytes, entry)?;
    }
    Ok(bytes)
}
