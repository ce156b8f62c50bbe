// The refusals, each with the number that it is known by.
#![tactic(auto)]

ghost use Rattle.std.specs.Prelude.{◌≡◌, Some};
ghost use Rattle.refusals.specs.Numbers.{number_of, Distinct, refused_line};

use std::fmt;

// Why a call said no. The value of a case is its number.
#[derive(Clone, Copy, PartialEq, Eq, Debug)]
pub enum Refusal {
    // a badge number over 268,435,455
    Badge = 21,
    // a name of no code points, or of more than 24
    NameLength = 22,
    // a code point that a name may not have
    CodePoint = 23,
    // 1 to 23 bytes where a log record should be
    Tail = 24,
}

impl Refusal {
    pub fn number(self) -> u8
        ensures { result ≡ number_of self }
    {
        self as u8
    }
}

// No two refusals have one number.
pub fn numbers_differ()
    ensures { Distinct }
{}

// The line by which a program reports a refusal at the line or record `at`, counted from 1.
#[derive(Clone, Copy)]
pub struct Refused {
    pub refusal: Refusal,
    pub at: u64,
}

impl fmt::Display for Refused {
    ghost output = { λ x. Some (refused_line x) };

    fn fmt<W: fmt::Write>(&self, f: &mut fmt::Formatter<W>) -> fmt::Result {
        let number = self.refusal.number();
        let at = self.at;
        write!(f, "refused {number} {at}")
    }
}
