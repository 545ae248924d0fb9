// A file read: the plan and the cells that it means, or the first ground against it.
ghost use Rattle.patterns.specs.Reads.{Reads};

use crate::cells::Filling;
use crate::decoding::decode;
use crate::plan::Plan;
use crate::planning::plan;
use crate::singling::single_out;
use faults::RecordFault;

// What the file means: the field, the order and the periods, with the cells written to the lent codes. Refused, they are as they were.
pub fn read(bytes: &[u8], cells: &mut [u16; 64]) -> Result<Plan, RecordFault>
    ensures { Reads bytes.now cells.old result cells.new }
{
    let entries = decode(bytes)?;
    let singles = single_out(entries.as_slice())?;
    let plan = plan(&singles)?;
    let filling = Filling {
        periods: plan.periods.as_slice(),
        entries: entries.as_slice(),
        width: plan.width,
    };
    *cells = filling.codes(&plan.field)?;
    Ok(plan)
}
