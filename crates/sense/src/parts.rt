// The parts of a draft.
ghost use Rattle.std.specs.Prelude.{◌≡◌, true, slice_set};
ghost use Rattle.events.specs.Kind.{kind_number};
ghost use Rattle.sense.specs.Drafted.{no_parts, no_kinds, with_kinds, binding_in, misplaced_in, part_kept};

use crate::part::Part;
use crate::room::keep;
use events::Kind;

// The part that has a variable, by its number from 0.
#[derive(Clone, Copy)]
pub struct Binding {
    pub part: u8,
    pub negative: bool,
}

// The part that was read last, by whether it is negative, with its place.
#[derive(Clone, Copy, PartialEq, Eq, Debug)]
pub enum LastPart {
    Positive(usize),
    Negative(usize),
}

#[derive(Clone, Copy)]
pub struct Parts {
    // the first 12, in a room with a length, since libraries use no heap (room.rt)
    pub kept: [Part; 12],
    pub len: u8,
    // who has a variable first, by its letter
    pub bound: [Option<Binding>; 256],
    // how many were positive; there is no counting past 7
    pub positives: u8,
    // the kinds of the part that is being read
    pub kinds: [bool; 16],
    // before any part it is as if a positive one stood at 0
    pub last: LastPart,
}

// What stands where no part is.
pub const BLANK: Part = Part {
    negative: false,
    kinds: [false; 16],
    variable: 0,
};

impl Parts {
    pub(crate) fn none() -> Parts
        ensures { result ≡ no_parts }
    {
        Parts {
            kept: [BLANK; 12],
            len: 0,
            bound: [None; 256],
            positives: 0,
            kinds: [false; 16],
            last: LastPart::Positive(0),
        }
    }

    // The part that has this variable.
    pub(crate) fn binding(&self, letter: u8) -> Option<Binding>
        ensures { result ≡ binding_in self.now letter }
    {
        self.bound[letter as usize]
    }

    // Whether such a part may not come next: a second negative one in a row, or a seventh positive one.
    pub(crate) fn misplaces(&self, negative: bool) -> bool
        ensures { result ≡ misplaced_in self.now negative }
    {
        if negative {
            matches!(self.last, LastPart::Negative(_))
        } else {
            self.positives == 6
        }
    }

    pub(crate) fn clear_kinds(&mut self)
        ensures { self.new ≡ with_kinds self.old no_kinds }
    {
        self.kinds = [false; 16];
    }

    pub(crate) fn set_kind(&mut self, kind: Kind)
        ensures { self.new ≡ with_kinds self.old (slice_set self.old.kinds (kind_number kind) true) }
    {
        self.kinds[kind as usize] = true;
    }

    // The part whose kinds have been read.
    pub(crate) fn keep(&mut self, place: usize, negative: bool, letter: u8)
        ensures { self.new ≡ part_kept self.old place negative letter }
    {
        let binding = Binding {
            part: self.len,
            negative,
        };
        self.bound[letter as usize].get_or_insert(binding);
        let part = Part {
            negative,
            kinds: self.kinds,
            variable: letter,
        };
        keep(&mut self.kept, &mut self.len, part);
        if !negative && self.positives < 7 {
            self.positives += 1;
        }
        self.last = if negative {
            LastPart::Negative(place)
        } else {
            LastPart::Positive(place)
        };
    }
}
