// The line of a text that has a place, and the caret under it.
ghost use Rattle.checkquery.specs.Quote.{last_line, first_line, padding, quote_of};
ghost use Rattle.std.specs.Prelude.{◌≡◌, ◌++◌, OnOk};

use std::io;
use std::io::Write;

// What stands behind the last line feed.
fn last_line(bytes: &[u8]) -> &[u8]
    ensures { result.now ≡ last_line bytes.now }
{
    let mut begin = 0;
    for (index, byte) in bytes.iter().enumerate() {
        if *byte == b'\n' {
            begin = index + 1;
        }
    }
    &bytes[begin..]
}

// What stands before the first line feed.
fn first_line(bytes: &[u8]) -> &[u8]
    ensures { result.now ≡ first_line bytes.now }
{
    for (index, byte) in bytes.iter().enumerate() {
        if *byte == b'\n' {
            return &bytes[..index];
        }
    }
    bytes
}

// Appends the line that has the place, and one with a caret under the place and a word behind it.
pub fn push_quote(out: &mut Vec<u8>, text: &[u8], place: usize, word: &str) -> io::Result<()>
    ensures { OnOk result (out.new.items ≡ out.old.items ++ quote_of text.now place word.now) }
{
    let (before, after) = text.split_at(place.min(text.len()));
    let before = last_line(before);
    out.write_all(before)?;
    out.write_all(first_line(after))?;
    out.write_all(b"\n")?;
    push_padding(out, before)?;
    writeln!(out, "^ {word}")
}

fn push_padding(out: &mut Vec<u8>, before: &[u8]) -> io::Result<()>
    ensures { OnOk result (out.new.items ≡ out.old.items ++ padding before.now) }
{
    for byte in before {
        out.push(if *byte == b'\t' { b'\t' } else { b' ' })?;
    }
    Ok(())
}
