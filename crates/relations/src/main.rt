// Reads a file of records on standard input, and prints the listing of the row that it means, or the line of its refusal.
#![tactic(auto)]

ghost use Rattle.std.specs.Prelude.{◌≡◌, ℕ, ◌≤◌, List, length, take, IfOk, IfSome};
ghost use Rattle.patterns.specs.Files.{Whole};

use anyhow::anyhow;
use printouts::printout;
use std::alloc::Global;
use std::io;
use std::io::Read;

// One byte more than the longest file that is taken: an input that reaches it is refused, whatever follows.
const LIMIT: u64 = 805;

// The bytes of an input up to its end or the limit.
fn read_start<R: Read + Drop>(heap: Global, input: R) -> io::Result<Vec<u8>>
    ensures start { IfOk result (λ bytes. IfSome (R.remaining input) (λ all. bytes.items ≡ take LIMIT all)) }
    ensures refused { (bytes : List ℕ) → LIMIT ≤ length bytes → Whole bytes → ⊥ }
{
    let mut bytes = Vec::new(heap);
    input.take(LIMIT).read_to_end(&mut bytes)?;
    Ok(bytes)
}

fn print_relations(rt: &HostRuntime) -> anyhow::Result<()> {
    let heap = rt.alloc();
    let bytes = read_start(heap, rt.stdin()).map_err(|fault| match fault.kind() {
        io::ErrorKind::OutOfMemory => anyhow!("there is not enough memory"),
        _ => anyhow!("standard input cannot be read"),
    })?;
    let text = printout(heap, &bytes).map_err(|_| anyhow!("there is not enough memory"))?;
    rt.print(text)?;
    Ok(())
}

fn main(rt: HostRuntime) -> anyhow::Result<()> {
    print_relations(&rt)
}
