// A fault with the record beside it.
ghost use Rattle.std.specs.Prelude.{◌≡◌, Ok, Err, MatchResult};
ghost use Rattle.faults.specs.declared.file.FileFault.TheVariants.{Subject};

use faults::{FileFault, RecordFault, SubjectFault};

// The fault of the record at a place.
pub(crate) fn fault_at(place: usize, fault: FileFault) -> RecordFault
    ensures { result ≡ record { «record» = place; fault = fault } }
{
    RecordFault {
        record: place,
        fault,
    }
}

// What is answered of a record; a fault with the record beside it.
pub(crate) fn of_record<T>(place: usize, answer: Result<T, SubjectFault>) -> Result<T, RecordFault>
    ensures { MatchResult answer (λ value. result ≡ Ok value) (λ e. result ≡ Err (record { «record» = place; fault = Subject e })) }
{
    answer.map_err(|fault| fault_at(place, FileFault::from(fault)))
}
