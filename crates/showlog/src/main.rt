// showlog: a badge log on standard input, in words on standard output.
#![tactic(auto)]

mod lines;
mod stream;
mod text;

use events::RECORD_LEN;
use stream::show;

// The log is read in chunks of this many whole records.
const CHUNK: usize = 4096 * RECORD_LEN;

fn main(rt: HostRuntime) -> anyhow::Result<()> {
    run(&rt)
}

fn run(rt: &HostRuntime) -> anyhow::Result<()> {
    let mut chunk = vec![in rt.alloc(); 0u8; CHUNK]?;
    show(rt.alloc(), &mut rt.stdin(), &mut rt.stdout(), &mut chunk)
}
