// What is wrong with what a query says, and where.
ghost use Rattle.std.specs.Prelude.{◌≡◌};
ghost use Rattle.sense.specs.Faults.{number_of, place_of, noted};

#[derive(Clone, Copy, PartialEq, Eq, Debug)]
pub enum SenseFault {
    // a word that is no kind of event
    UnknownKind(usize),
    // a variable that an earlier part has
    Doubled(usize),
    // a variable that no part has
    Unbound(usize),
    // a seventh positive part, a second negative part in a row, a negative part at the end
    Shape(usize),
    // a 25th test
    ManyTests(usize),
    // a clause that uses two negative variables
    TwoNegatives(usize),
    // a window that is not from 1 to 864,000
    Window(usize),
}

impl SenseFault {
    pub fn number(self) -> u8
        ensures { result ≡ number_of self }
    {
        match self {
            SenseFault::UnknownKind(_) => 6,
            SenseFault::Doubled(_) => 7,
            SenseFault::Unbound(_) => 8,
            SenseFault::Shape(_) => 9,
            SenseFault::ManyTests(_) => 10,
            SenseFault::TwoNegatives(_) => 11,
            SenseFault::Window(_) => 12,
        }
    }

    pub fn place(self) -> usize
        ensures { result ≡ place_of self }
    {
        match self {
            SenseFault::UnknownKind(place)
            | SenseFault::Doubled(place)
            | SenseFault::Unbound(place)
            | SenseFault::Shape(place)
            | SenseFault::ManyTests(place)
            | SenseFault::TwoNegatives(place)
            | SenseFault::Window(place) => place,
        }
    }
}

// The earlier of a fault so far and another: the one with the smaller place, and at one place the one with the smaller number.
pub(crate) fn earlier(so_far: Option<SenseFault>, fault: SenseFault) -> Option<SenseFault>
    ensures { result ≡ noted so_far fault }
{
    let Some(first) = so_far else {
        return Some(fault);
    };
    if (fault.place(), fault.number()) < (first.place(), first.number()) {
        Some(fault)
    } else {
        Some(first)
    }
}
