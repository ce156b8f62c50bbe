// The words of a query.
ghost use Rattle.std.specs.Prelude.{◌≡◌};
ghost use Rattle.letters.specs.Words.{class_of};

// What a word stands for. All words that are none of the others stand for kinds of event.
#[derive(Clone, Copy, PartialEq, Eq, Debug)]
pub enum Class {
    Event,
    Seq,
    Where,
    Within,
    And,
    Or,
    Any,
    Key,
    // r0 to r3, by its number
    Reading(u8),
    // one small letter
    Variable(u8),
    Kind,
}

pub fn class_of(word: &[u8]) -> Class
    ensures { result ≡ class_of word.now }
{
    match word {
        [b'E', b'V', b'E', b'N', b'T'] => Class::Event,
        [b'S', b'E', b'Q'] => Class::Seq,
        [b'W', b'H', b'E', b'R', b'E'] => Class::Where,
        [b'W', b'I', b'T', b'H', b'I', b'N'] => Class::Within,
        [b'A', b'N', b'D'] => Class::And,
        [b'O', b'R'] => Class::Or,
        [b'A', b'N', b'Y'] => Class::Any,
        [b'k', b'e', b'y'] => Class::Key,
        [b'r', n @ b'0'..=b'3'] => Class::Reading(*n - b'0'),
        [v @ b'a'..=b'z'] => Class::Variable(*v),
        _ => Class::Kind,
    }
}
