// The entries of a file.
ghost use Rattle.std.specs.Prelude.{◌≡◌, length, MatchResult};
ghost use Rattle.faults.specs.declared.file.FileFault.TheVariants.{Content};
ghost use Rattle.records.specs.Format.{Says};
ghost use Rattle.records.specs.Layout.{record_of};
ghost use Rattle.records.specs.declared.entry.Entry.{Entry};
ghost use Rattle.patterns.specs.Decodings.{Decoded};

use crate::refusing::fault_at;
use arrayvec::ArrayVec;
use faults::{FileFault, RecordFault};
use records::{Entry, Record};

// How many bytes a record has.
const RECORD_BYTES: usize = 12;

// The most records of a file.
const MOST_RECORDS: usize = 67;

// What the 12 bytes of the record of a number say; refused where they say nothing.
fn entry_of(number: usize, bytes: &[u8]) -> Result<Entry, RecordFault>
    requires { length bytes.now ≡ 12 }
    ensures { MatchResult result (Says (record_of bytes.now)) (λ fault. (fault ≡ record { «record» = number; fault = Content }) × ((e : Entry) → Says (record_of bytes.now) e → ⊥)) }
{
    let nothing = fault_at(number, FileFault::Content);
    let held = Record::try_from(bytes).map_err(|_| nothing)?;
    Entry::try_from(held).map_err(|_| nothing)
}

// The entries of the file, where it is whole records, at most 67, and each says something.
pub(crate) fn decode(bytes: &[u8]) -> Result<ArrayVec<Entry, MOST_RECORDS>, RecordFault>
    ensures { Decoded bytes.now result }
{
    let (records, rest) = bytes.as_chunks::<RECORD_BYTES>();
    if !rest.is_empty() || records.len() > MOST_RECORDS {
        return Err(fault_at(0, FileFault::Length));
    }
    let mut entries = ArrayVec::new();
    for (number, bytes) in records.iter().enumerate() {
        entries.push(entry_of(number, bytes)?);
    }
    Ok(entries)
}
