// The codes of the cells, under the field.
ghost use Rattle.std.specs.Prelude.{◌≡◌, ℕ, MatchResult};
ghost use Rattle.faults.specs.Places.{Searched, NoneAt, FirstAt};
ghost use Rattle.faults.specs.declared.file.FileFault.TheVariants.{Subject};
ghost use Rattle.faults.specs.declared.subject.SubjectFault.TheVariants.{Code};
ghost use Rattle.fields.specs.Codes.{CodeFault};
ghost use Rattle.polynomials.specs.Arrays.{cell_at};
ghost use Rattle.patterns.specs.Cells.{OfCell, CellsAre};
ghost use Rattle.patterns.specs.Fillings.{Fills};
ghost use Rattle.patterns.specs.Plans.{field_of};

use crate::cells::Filling;
use crate::plan::FieldKind;
use crate::refusing::of_record;
use faults::{RecordFault, SubjectFault};
use fields::first_outside;

// The first cell whose code is not below the field's order.
fn first_outside_field(field: &FieldKind, cells: &[u16]) -> Option<usize>
    ensures { Searched (CodeFault (field_of field.now).order cells.now) result }
{
    match *field {
        FieldKind::Residues(field) => first_outside(&field, cells),
        FieldKind::Binary(field) => first_outside(&field, cells),
    }
}

impl Filling<'_> {
    // Refused where a code is not below the field's order, at the record of the first such cell in cell order.
    fn check_codes(&self, field: &FieldKind, cells: &[u16]) -> Result<(), RecordFault>
        requires { CellsAre self.now.periods.now self.now.entries.now cells.now }
        ensures { MatchResult result (λ _. NoneAt (CodeFault (field_of field.now).order cells.now)) (λ e. ((k : ℕ) × (e.fault ≡ Subject (Code k)) × FirstAt (CodeFault (field_of field.now).order cells.now) k × OfCell self.now.entries.now (cell_at self.now.periods.now k) e.«record»)) }
    {
        let Some(position) = first_outside_field(field, cells) else {
            return Ok(());
        };
        let place = self.record_of_cell(position).unwrap();
        of_record(place, Err(SubjectFault::Code(position)))
    }

    // The cells of a file, as 64 codes; refused by the cell records, then by a code.
    pub(crate) fn codes(&self, field: &FieldKind) -> Result<[u16; 64], RecordFault>
        ensures { Fills (field_of field.now).order self.now.periods.now self.now.entries.now self.now.width result }
    {
        let cells = self.collect()?;
        self.check_codes(field, &cells[0..self.width])?;
        Ok(cells)
    }
}
