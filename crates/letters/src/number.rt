// The numbers of a query.
ghost use Rattle.std.specs.Prelude.{◌≡◌};
ghost use Rattle.letters.specs.Numbers.{number_value};

// The largest number that a query may write.
pub const LARGEST: u64 = 2_147_483_647;

// The value of a row of digits; none where it is over the largest number.
pub fn number_value(digits: &[u8]) -> Option<u32>
    ensures { result ≡ number_value digits.now }
{
    // A `for`, since the contract speaks of all rows of bytes, and no parser of the library reads those that are no digits.
    let mut value: u64 = 0;
    for d in digits {
        value = value * 10 + u64::from(d.saturating_sub(b'0'));
        if value > LARGEST {
            return None;
        }
    }
    Some(value as u32)
}
