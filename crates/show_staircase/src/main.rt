// Draws the staircase of a listing in two variables, or passes the line of a refusal through.
#![tactic(auto)]

mod drawings;
mod entries;
mod grounds;
mod labels;
mod marks;
mod pieces;
mod reading;
mod words;

use drawings::drawing;
use reading::read;
use std::io::Read;
use words::is_refusal;

fn show(rt: &HostRuntime) -> anyhow::Result<()> {
    let heap = rt.alloc();
    let mut bytes = Vec::new(heap);
    rt.stdin().read_to_end(&mut bytes)?;
    let text = String::from_utf8_lossy(heap, bytes.as_slice())?;
    let line = text.as_str().trim_end();
    if is_refusal(line) {
        println!(rt; "{line}")?;
        return Ok(());
    }
    let listed = read(heap, text.as_str())?;
    let drawing = drawing(heap, listed.as_slice())?;
    print!(rt; "{drawing}")?;
    Ok(())
}

fn main(rt: HostRuntime) -> anyhow::Result<()> {
    show(&rt)
}
