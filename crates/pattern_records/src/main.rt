// Turns a readable text on standard input into the records of a pattern on standard output.
#![tactic(auto)]

mod appending;
mod cells;
mod fault;
mod keyword;
mod line;
mod pattern;
mod statement;
mod taking;
mod text;

use appending::records_of;
use pattern::Pattern;
use std::io::{Read, Write};
use std::process::ExitCode;
use text::pattern_of;

// All of standard input.
fn input(rt: &HostRuntime) -> anyhow::Result<Vec<u8>> {
    let mut bytes = Vec::new(rt.alloc());
    rt.stdin().read_to_end(&mut bytes)?;
    Ok(bytes)
}

// The records of the pattern, to standard output.
fn write_records(rt: &HostRuntime, pattern: &Pattern) -> anyhow::Result<()> {
    let records = records_of(rt.alloc(), pattern.entries.as_slice())?;
    rt.stdout().write_all(records.as_slice())?;
    Ok(())
}

fn main(rt: HostRuntime) -> anyhow::Result<ExitCode> {
    let bytes = input(&rt)?;
    match pattern_of(rt.alloc(), bytes.as_slice()) {
        Ok(pattern) => {
            write_records(&rt, &pattern)?;
            Ok(ExitCode::SUCCESS)
        }
        Err(fault) => {
            eprintln!(rt; "{fault}")?;
            Ok(ExitCode::FAILURE)
        }
    }
}
