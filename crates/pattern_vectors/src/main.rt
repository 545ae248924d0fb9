// Holds the printout of each file of records to the text beside it.
#![tactic(auto)]

ghost use Rattle.std.specs.Prelude.{◌≡◌, ◌+◌, ◌-◌, ◌^◌, ◌<◌, ◌≤◌, length, if◌then◌else◌, IfOk};

use printouts::printout;
use std::{fs, io};

// How many cases there were, and how many of them match.
#[derive(Drop)]
struct Tally {
    matching: usize,
    cases: usize,
    ghost within: { matching ≤ cases },
}

impl Tally {
    // Of no case.
    fn empty() -> Tally
        ensures { result.cases ≡ 0 }
    {
        Tally {
            matching: 0,
            cases: 0,
        }
    }

    // One case more, which matches or differs.
    fn note(&mut self, matches: bool)
        requires { self.old.cases < 2 ^ 64 - 1 }
        ensures cases_after { self.new.cases ≡ self.old.cases + 1 }
        ensures matching_after { self.new.matching ≡ self.old.matching + (if matches then 1 else 0) }
    {
        if matches {
            self.matching += 1;
        }
        self.cases += 1;
    }
}

// Whether the printout of a case's records is its text.
fn matches(rt: &HostRuntime, name: &str) -> io::Result<bool> {
    let heap = rt.alloc();
    let records = fs::read(rt, format!(in heap; "{name}.bin")?)?;
    let expected = fs::read(rt, format!(in heap; "{name}.txt")?)?;
    let found = printout(heap, &records)?;
    Ok(found.as_bytes() == expected.as_slice())
}

// Tries the cases one after another, and prints the name of each that differs.
fn tried(rt: &HostRuntime, names: &[&str]) -> io::Result<Tally>
    ensures { IfOk result (λ tally. tally.cases ≡ length names.now) }
{
    let mut tally = Tally::empty();
    for name in names {
        let matching = matches(rt, name)?;
        if !matching {
            println!(rt; "{name} differs")?;
        }
        tally.note(matching);
    }
    Ok(tally)
}

fn main(rt: HostRuntime) -> io::Result<()> {
    let index = fs::read_to_string(&rt, "names")?;
    let names: Vec<&str> = index.lines().collect(rt.alloc())?;
    let Tally { matching, cases } = tried(&rt, &names)?;
    println!(rt; "{matching} of {cases} match")
}
