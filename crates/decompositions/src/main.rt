// Compares every name of one code point with the decompositions that Unicode publishes for U+0000 to U+00FF: those letters must be
// taken apart as published, and every other code point must stay as it is.
#![tactic(auto)]

use anyhow::Context;
use keys::{Key, Name};
use std::alloc::Global;
use std::collections::BTreeMap;
use std::fs;

// What was published: the letters that Unicode takes apart, each with its two parts, and how many lines told of them. Where a letter
// has several lines, the first holds.
#[derive(Drop)]
struct Published {
    parts: BTreeMap<u32, [u32; 2]>,
    lines: usize,
}

// How a code point as a name compares with what was published for it.
#[derive(Drop)]
enum Found {
    // no name
    Refused,
    // the same
    Agrees,
    // something else
    Differs,
}

fn main(rt: HostRuntime) -> anyhow::Result<()> {
    compare(&rt)
}

fn compare(rt: &HostRuntime) -> anyhow::Result<()> {
    let text = fs::read_to_string(rt, "latin1.txt")?;
    let published = parse_all(rt.alloc(), text.as_str())?;
    let mut refused = 0u32;
    let mut agreeing = 0usize;
    for point in 0..0x11_0000 {
        match judge(&published, point) {
            Found::Refused => refused = refused.saturating_add(1),
            Found::Agrees => agreeing = agreeing.saturating_add(1),
            Found::Differs => println!(rt; "U+{point:04X} differs")?,
        }
    }
    let letters = published.lines;
    let others = agreeing.saturating_sub(letters);
    println!(rt;
        "{letters} letters as published, {others} other code points unchanged, {refused} refused"
    )?;
    Ok(())
}

// One code point as a name.
fn judge(published: &Published, point: u32) -> Found {
    match published.parts.get(&point) {
        Some(parts) => matched(point, parts),
        None => matched(point, &[point]),
    }
}

// Whether the code point alone has these parts as its identity, and is the same name as they are, on the same shelf.
fn matched(point: u32, parts: &[u32]) -> Found {
    let Ok(name) = Name::new(&[point]) else {
        return Found::Refused;
    };
    let Ok(apart) = Name::new(parts) else {
        return Found::Differs;
    };
    if name.identity() == parts && name.same(&apart) && name.shelf() == apart.shelf() {
        Found::Agrees
    } else {
        Found::Differs
    }
}

fn parse_all(heap: Global, text: &str) -> anyhow::Result<Published> {
    let mut published = Published {
        parts: BTreeMap::new(heap),
        lines: 0,
    };
    for line in text.lines().filter(|line| !line.starts_with('#')) {
        let (whole, parts) = parse(line)?;
        if !published.parts.contains_key(&whole) {
            published.parts.insert(whole, parts)?;
        }
        published.lines = published.lines.saturating_add(1);
    }
    Ok(published)
}

// 00C0;0041 0300
fn parse(line: &str) -> anyhow::Result<(u32, [u32; 2])> {
    let (whole, parts) = line.split_once(';').context("no semicolon")?;
    let (base, mark) = parts.split_once(' ').context("not two parts")?;
    Ok((hex(whole)?, [hex(base)?, hex(mark)?]))
}

fn hex(digits: &str) -> anyhow::Result<u32> {
    Ok(u32::from_str_radix(digits, 16)?)
}

#[cfg(test)]
mod tests {
    use super::*;
    use std::test::Fail;

    #[test]
    fn first_line_of_a_letter_holds(rt: HostRuntime) -> Result<(), Fail> {
        let text = "# a letter on two lines\n00C0;0041 0300\n00C0;0041 0301\n";
        let published = parse_all(rt.alloc(), text)?;
        assert!(rt; published.lines == 2);
        assert!(rt; published.parts.get(&0xC0) == Some(&[0x41, 0x300]));
        Ok(())
    }
}
