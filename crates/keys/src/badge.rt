// Badges: the cards that members show to a console.
ghost use Rattle.std.specs.Prelude.{◌≡◌, ℕ, ◌%◌, ◌^◌, ◌<◌, ◌==◌};
ghost use Rattle.keys.specs.Badge.{badge_answer};
ghost use Rattle.std.proofs.Common.{rules};

use crate::key::Key;
use refusals::Refusal;
use std::marker::Model;

// A badge has a number from 0 to 268,435,455, which fits in 28 bits.
#[derive(Clone, Copy)]
pub struct Badge {
    number: u32,
}

// A clause sees a badge as its number.
impl Model for Badge {
    ghost Value = { ℕ };

    ghost view = { λ b. b.number };

    ghost invariant = { λ b. b.number < 2 ^ 28 };

    ghost inverse = { λ n. record { number = n } };
}

impl Badge {
    // The largest number of a badge.
    pub const MAX: u32 = 268_435_455;

    // The badge with this number; refused where the number is too large. No `TryFrom<u32>` beside it, which would be a second name
    // for it.
    pub fn new(number: u32) -> Result<Badge, Refusal>
        ensures { result ≡ badge_answer number }
    {
        if number > Badge::MAX {
            return Err(Refusal::Badge);
        }
        Ok(Badge { number })
    }

    pub fn number(&self) -> u32
        ensures value { result ≡ self.now }
        ensures fits { result < 2 ^ 28 }
    {
        self.number
    }
}

impl Key for Badge {
    ghost Identity = { ℕ };

    ghost identity = { λ b. b };

    ghost alike = { λ a b. (a == b) };

    ghost shelved = { λ b. b % 16 };

    ghost sound = { Prim.search rules };

    ghost complete = { Prim.search rules };

    ghost below = { Prim.search rules };

    ghost together = { Prim.search rules };

    fn same(&self, other: &Badge) -> bool {
        other.number == self.number
    }

    fn shelf(&self) -> u8 {
        (self.number % 16) as u8
    }
}
