// One record of the badge log.
ghost use Rattle.std.specs.Prelude.{◌≡◌, ◌+◌, ◌<◌, ◌≤◌, take, drop, slice_index};
ghost use Rattle.events.specs.Bits.{number_of};
ghost use Rattle.events.specs.Record.{fields, decoded, values_in, signed_32, Inverse};

use crate::event::Event;
use keys::Badge;

// From the highest bit: the kind (4 bits), the time (32), the badge (28), and four readings (32 each).
pub const RECORD_LEN: usize = 24;

// The event of a record. Every record has one.
pub fn decode(bytes: &[u8; RECORD_LEN]) -> Event<Badge>
    ensures { fields result ≡ decoded bytes.now }
{
    Event {
        kind: kind_bits(bytes),
        time: time_bits(bytes),
        key: badge_bits(bytes),
        // no `array::from_fn`: its contract says what each call gave and not which array, and that proof is longer than four calls
        readings: [
            reading_bits(bytes, 0),
            reading_bits(bytes, 1),
            reading_bits(bytes, 2),
            reading_bits(bytes, 3),
        ],
    }
}

// A number, as the kind of an event is.
fn kind_bits(bytes: &[u8; RECORD_LEN]) -> u8
    ensures { result ≡ slice_index (values_in bytes.now) 0 }
{
    (word(bytes, 0) >> 28) as u8
}

fn time_bits(bytes: &[u8; RECORD_LEN]) -> u32
    ensures { result ≡ slice_index (values_in bytes.now) 1 }
{
    let high = word(bytes, 0) % (1 << 28);
    high * 16 + (word(bytes, 4) >> 28)
}

fn badge_bits(bytes: &[u8; RECORD_LEN]) -> Badge
    ensures { result ≡ slice_index (values_in bytes.now) 2 }
{
    let Ok(badge) = Badge::new(word(bytes, 4) % (1 << 28)) else {
        unreachable()
    };
    badge
}

// The reading number `i`, from 0.
fn reading_bits(bytes: &[u8; RECORD_LEN], i: usize) -> i32
    requires { i < 4 }
    ensures { result ≡ signed_32 (slice_index (values_in bytes.now) (3 + i)) }
{
    word(bytes, 8 + 4 * i).cast_signed()
}

// The 32 bits from byte `at` on.
fn word(bytes: &[u8; RECORD_LEN], at: usize) -> u32
    requires { at + 4 ≤ 24 }
    ensures { result ≡ number_of (take 4 (drop at bytes.now)) }
{
    u32::from_be_bytes([bytes[at], bytes[at + 1], bytes[at + 2], bytes[at + 3]])
}

// Encoding and decoding are inverse to each other.
#[tactic(auto, using(crate::proofs::Decoding::inverse))]
pub fn encoding_is_inverse()
    ensures { Inverse }
{}
