// Reads names, one a line, and says of each which line first had it: one member, however the name is spelled.
#![tactic(auto)]

mod lines;
mod listing;
mod members;

use lines::End;
use members::Members;
use std::io::{BufRead, BufReader, BufWriter, Write};

fn list_all(rt: &HostRuntime, out: &mut (impl Write + Drop)) -> anyhow::Result<()> {
    let heap = rt.alloc();
    let mut members = Members::new(heap);
    // Not by enumerate, which would not keep the number of lines for the end.
    let mut lines: u64 = 0;
    for text in BufReader::new(heap, rt.stdin())?.lines(heap) {
        lines = lines.saturating_add(1);
        let answer = members.list(text?.as_str(), lines)?;
        out.writeln(answer)?;
    }
    let members = members.count();
    out.writeln(End { lines, members })?;
    Ok(())
}

// Where the list breaks off, what was printed before stays.
fn run(rt: &HostRuntime) -> anyhow::Result<()> {
    let mut out = BufWriter::new(rt.alloc(), rt.stdout())?;
    let listed = list_all(rt, &mut out);
    out.flush()?;
    listed
}

fn main(rt: HostRuntime) -> anyhow::Result<()> {
    run(&rt)
}
