// The sixteen kinds of event, numbered from 0.
ghost use Rattle.std.specs.Prelude.{◌≡◌, ◌<◌, Some};
ghost use Rattle.events.specs.Kind.{kind_number, has_word, kind_named, kind_with, NamedLaw, Numbers, unknown_text, word_of, WordsDiffer};
ghost use Rattle.std.specs.List.{find};
ghost use Rattle.std.specs.Option.{option_map};

use std::error::Error;
use std::fmt;

const WORDS: [&str; 16] = [
    "BADGEIN", "BADGEOUT", "SEATON", "SEATOFF", "START", "STOP", "STROKE", "SPLIT", "STRAPON",
    "STRAPOFF", "PAUSE", "RESUME", "DOORIN", "DOOROUT", "FAULT", "CLEANED",
];

#[derive(Clone, Copy, PartialEq, Eq, Debug)]
pub enum Kind {
    BadgeIn = 0,
    BadgeOut = 1,
    SeatOn = 2,
    SeatOff = 3,
    Start = 4,
    Stop = 5,
    Stroke = 6,
    Split = 7,
    StrapOn = 8,
    StrapOff = 9,
    Pause = 10,
    Resume = 11,
    DoorIn = 12,
    DoorOut = 13,
    Fault = 14,
    Cleaned = 15,
}

// A number that is no kind.
#[derive(Clone, Copy, PartialEq, Eq, Debug)]
pub struct UnknownKind(pub u8);

impl Kind {
    // In the order of their numbers.
    pub const ALL: [Kind; 16] = [
        Kind::BadgeIn,
        Kind::BadgeOut,
        Kind::SeatOn,
        Kind::SeatOff,
        Kind::Start,
        Kind::Stop,
        Kind::Stroke,
        Kind::Split,
        Kind::StrapOn,
        Kind::StrapOff,
        Kind::Pause,
        Kind::Resume,
        Kind::DoorIn,
        Kind::DoorOut,
        Kind::Fault,
        Kind::Cleaned,
    ];

    pub fn number(self) -> u8
        ensures { result ≡ kind_number self }
    {
        self as u8
    }

    pub fn word(self) -> &'static str
        ensures { Some result.now ≡ word_of (kind_number self) }
    {
        WORDS[self as usize]
    }

    fn has_word(self, word: &[u8]) -> bool
        ensures { result ≡ has_word (kind_number self) word.now }
    {
        self.word().as_bytes() == word
    }

    // The kind that has this word.
    #[tactic(auto, using(crate::proofs::Words::named_law))]
    pub fn named(word: &[u8]) -> Option<Kind>
        ensures value { result ≡ kind_with word.now }
        ensures law { NamedLaw word.now }
    {
        Kind::ALL.iter().copied().find(|kind| kind.has_word(word))
    }
}

impl TryFrom<u8> for Kind {
    type Error = UnknownKind;

    ghost try_from_gives = { Numbers };

    fn try_from(number: u8) -> Result<Self, UnknownKind> {
        Kind::ALL
            .get(number as usize)
            .copied()
            .ok_or(UnknownKind(number))
    }
}

impl fmt::Display for Kind {
    ghost output = { λ kind. word_of (kind_number kind) };

    fn fmt<W: fmt::Write>(&self, f: &mut fmt::Formatter<W>) -> fmt::Result {
        f.write_str(self.word())
    }
}

impl fmt::Display for UnknownKind {
    ghost output = { λ e. Some (unknown_text e.0) };

    fn fmt<W: fmt::Write>(&self, f: &mut fmt::Formatter<W>) -> fmt::Result {
        write!(f, "no kind of event has number {}", self.0)
    }
}

impl Error for UnknownKind {}

// The word for a kind by its number, as an event has it. A number over 15 is no kind and has none.
pub fn kind_word(kind: u8) -> Option<&'static str>
    ensures { option_map (λ x. x.now) result ≡ word_of kind }
{
    Kind::try_from(kind).ok().map(Kind::word)
}

// Each kind has a word of its own.
#[tactic(auto, using(crate::proofs::Words::words_differ))]
pub fn words_differ()
    ensures { WordsDiffer }
{}
