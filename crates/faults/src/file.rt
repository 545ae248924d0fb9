// The faults of a file of records; a fault of a subject stays whole inside. The record at fault is put beside the fault.
ghost use Rattle.std.specs.Prelude.{◌≡◌};
ghost use Rattle.faults.specs.Grounds.{of_file, of_record};
ghost use Rattle.faults.specs.declared.file.FileFault.TheVariants.{Subject};

use crate::refusal::{Layer, Refusal};
use crate::subject::SubjectFault;

#[derive(Clone, Copy, PartialEq, Eq, Debug)]
pub enum FileFault {
    // the file is not whole records, or has more than 67
    Length,
    // a record is of no listed kind and subkind, or has a number that it does not use
    Content,
    // a field, order or period record comes twice, or is missing
    Single,
    // a cell record is outside the period or its cell's second, or a cell has none
    Cell,
    // a fault of a subject, passed up
    Subject(SubjectFault),
}

// A fault of a file with the record at fault; where nothing stands that should, the number of records.
#[derive(Clone, Copy, PartialEq, Eq, Debug)]
pub struct RecordFault {
    pub record: usize,
    pub fault: FileFault,
}

impl From<FileFault> for Refusal {
    ghost from_gives = { λ fault r. r ≡ of_file fault };

    fn from(fault: FileFault) -> Refusal {
        let ground = match fault {
            FileFault::Length => 1,
            FileFault::Content => 2,
            FileFault::Single => 3,
            FileFault::Cell => 8,
            FileFault::Subject(fault) => return Refusal::from(fault),
        };
        Refusal {
            ground,
            place: 0,
            layer: Layer::File,
        }
    }
}

impl From<RecordFault> for Refusal {
    ghost from_gives = { λ fault r. r ≡ of_record fault };

    // The place of the fault below gives way to that of the record.
    fn from(fault: RecordFault) -> Refusal {
        Refusal {
            place: fault.record,
            ..Refusal::from(fault.fault)
        }
    }
}

impl From<SubjectFault> for FileFault {
    ghost from_gives = { λ fault r. r ≡ Subject fault };

    fn from(below: SubjectFault) -> FileFault {
        FileFault::Subject(below)
    }
}
