// Reads a query text and says what is in it, or shows the place of its fault.
#![tactic(auto)]

mod lines;
mod quote;
mod report;

use report::report;
use std::io::{Read, Write};

fn run(rt: &HostRuntime) -> anyhow::Result<()> {
    let heap = rt.alloc();
    let mut text = Vec::new(heap);
    rt.stdin().read_to_end(&mut text)?;
    let mut told = Vec::new(heap);
    report(&mut told, text.as_slice())?;
    let mut out = rt.stdout();
    out.write_all(told.as_slice())?;
    out.flush()?;
    Ok(())
}

fn main(rt: HostRuntime) -> anyhow::Result<()> {
    run(&rt)
}
