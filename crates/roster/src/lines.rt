// The lines that are printed.
ghost use Rattle.roster.specs.Printed.{name_line, end_line};
ghost use Rattle.std.specs.Prelude.{Some};

use std::fmt;

// The name on a line, with the first line that had it.
#[derive(Clone, Copy)]
pub struct Listed {
    pub line: u64,
    pub first: u64,
    pub shelf: u8,
}

impl fmt::Display for Listed {
    ghost output = { λ x. Some (name_line x) };

    fn fmt<W: fmt::Write>(&self, f: &mut fmt::Formatter<W>) -> fmt::Result {
        let Listed { line, first, shelf } = *self;
        write!(f, "name {line} {first} {shelf}")
    }
}

// How many lines there were, and how many names that differ.
#[derive(Clone, Copy)]
pub struct End {
    pub lines: u64,
    pub members: u64,
}

impl fmt::Display for End {
    ghost output = { λ x. Some (end_line x) };

    fn fmt<W: fmt::Write>(&self, f: &mut fmt::Formatter<W>) -> fmt::Result {
        let End { lines, members } = *self;
        write!(f, "end {lines} {members}")
    }
}
