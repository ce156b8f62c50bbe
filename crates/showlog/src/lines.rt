// The lines that the program prints.
ghost use Rattle.showlog.specs.Lines.{numbered_line, end_line};
ghost use Rattle.std.specs.Prelude.{Some};

use events::Event;
use keys::Badge;
use std::fmt;

// N KIND TIME BADGE R0 R1 R2 R3: an event with the number of its record, from 1.
#[derive(Drop)]
pub struct Numbered {
    pub number: u64,
    pub event: Event<Badge>,
}

impl fmt::Display for Numbered {
    ghost output = { λ x. Some (numbered_line x) };

    fn fmt<W: fmt::Write>(&self, f: &mut fmt::Formatter<W>) -> fmt::Result {
        let Numbered { number, event } = *self;
        write!(f, "{number} {event}")
    }
}

// end N: how many whole records there were.
#[derive(Drop)]
pub struct End {
    pub records: u64,
}

impl fmt::Display for End {
    ghost output = { λ x. Some (end_line x) };

    fn fmt<W: fmt::Write>(&self, f: &mut fmt::Formatter<W>) -> fmt::Result {
        let records = self.records;
        write!(f, "end {records}")
    }
}
