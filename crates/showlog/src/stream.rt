// A log as a stream: it is read and described in chunks, so that memory does not grow with it.
ghost use Rattle.std.specs.Prelude.{◌≤◌, length, IfOk};

use crate::lines::End;
use crate::text::describe;
use std::alloc::Global;
use std::io;
use std::io::{Read, Write};

// Describes the log that `input` gives, through a chunk that has room for whole records alone. The chunk is lent, and what `fill` reads is proved to
// be no longer.
pub fn show(
    heap: Global,
    input: &mut impl Read,
    out: &mut impl Write,
    chunk: &mut [u8],
) -> anyhow::Result<()> {
    let mut text = String::new(heap);
    let mut records = 0;
    // until the input ends: a loop has a bound here
    for _ in 0..u64::MAX {
        let filled = fill(input, chunk)?;
        text.clear();
        records = describe(&mut text, &chunk[..filled], records)?;
        out.write_all(text.as_bytes())?;
        if filled < chunk.len() {
            break;
        }
    }
    writeln!(out, "{}", End { records })?;
    out.flush()?;
    Ok(())
}

// Reads until the buffer is full or the input ends, and answers how many bytes there are. By hand: `read_exact` loses their number where the input
// ends, and of `take` with `read_to_end` no contract says that they are no more than the room.
fn fill(input: &mut impl Read, buffer: &mut [u8]) -> io::Result<usize>
    ensures { IfOk result (λ n. n ≤ length buffer.old) }
{
    let mut filled = 0;
    while filled < buffer.len() {
        let count = input.read(&mut buffer[filled..])?;
        if count == 0 {
            break;
        }
        filled += count;
    }
    Ok(filled)
}

#[cfg(test)]
mod tests {
    use super::*;
    use std::array;
    use std::test::Fail;

    // Gives at most `most` bytes at a call.
    #[derive(Drop)]
    struct Slow<'a> {
        rest: &'a [u8],
        most: usize,
    }

    impl Read for Slow<'_> {
        fn read(&mut self, buf: &mut [u8]) -> io::Result<usize> {
            let most = self.most.min(buf.len());
            self.rest.read(&mut buf[0..most])
        }
    }

    // The length of a log whose bytes count up from 0, and how its text ends.
    const LENGTHS: [(usize, &str); 7] = [
        (0, "end 0\n"),
        (
            47,
            "1 BADGEIN 1056816 67438087 134810123 202182159 269554195 336926231\nrefused 24 2\nend 1\n",
        ),
        (48, "end 2\n"),
        (49, "refused 24 3\nend 2\n"),
        (96, "end 4\n"),
        (100, "refused 24 5\nend 4\n"),
        (120, "end 5\n"),
    ];

    #[test]
    fn chunks_make_the_whole(rt: HostRuntime) -> Result<(), Fail> {
        let heap = rt.alloc();
        let log: [u8; 120] = array::from_fn(|i| i as u8);
        for (len, last) in LENGTHS {
            assert!(rt; len <= log.len());
            let mut whole = Vec::new(heap);
            show(heap, &mut &log[0..len], &mut whole, &mut [0; 240])?;
            assert!(rt; whole.ends_with(last.as_bytes()));
            for most in [1, 7, 24, 47, 100] {
                let mut pieces = Vec::new(heap);
                let mut input = Slow {
                    rest: &log[0..len],
                    most,
                };
                show(heap, &mut input, &mut pieces, &mut [0; 48])?;
                assert!(rt; pieces.as_slice() == whole.as_slice());
            }
        }
        Ok(())
    }
}
