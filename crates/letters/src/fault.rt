// Faults in the letters of a query, and the search for the first.
ghost use Rattle.std.specs.Prelude.{◌≡◌};
ghost use Rattle.letters.specs.Faults.{number_of, place_of, judged, letters_answer, LettersLaw};
ghost use Rattle.letters.specs.Tokens.{placed};

use crate::number::number_value;
use crate::token::{Spanned, Token, Tokens};

// The most bytes that a query text may have.
pub const LONGEST: usize = 4096;

// What is wrong, and where. The place of a long text is its first byte too many.
#[derive(Clone, Copy)]
pub enum LetterFault {
    StrayByte(usize),
    LongNumber(usize),
    LongText,
}

impl LetterFault {
    pub fn number(self) -> u8
        ensures { result ≡ number_of self }
    {
        match self {
            LetterFault::StrayByte(_) => 1,
            LetterFault::LongNumber(_) => 2,
            LetterFault::LongText => 3,
        }
    }

    pub fn place(self) -> usize
        ensures { result ≡ place_of self }
    {
        match self {
            LetterFault::StrayByte(place) | LetterFault::LongNumber(place) => place,
            LetterFault::LongText => LONGEST,
        }
    }
}

// A token alone.
fn judge(spanned: Spanned) -> Result<(), LetterFault>
    ensures { result ≡ judged (placed spanned.entry) }
{
    match spanned.token {
        Token::Stray(_) => Err(LetterFault::StrayByte(spanned.place)),
        Token::Number(digits) => match number_value(digits) {
            Some(_) => Ok(()),
            None => Err(LetterFault::LongNumber(spanned.place)),
        },
        _ => Ok(()),
    }
}

// The fault of a text that is too long, or else the one that comes first, if there is any.
pub fn check_letters(text: &[u8]) -> Result<(), LetterFault>
    ensures answer { result ≡ letters_answer text.now }
    ensures law { LettersLaw text.now }
{
    if text.len() > LONGEST {
        return Err(LetterFault::LongText);
    }
    for token in Tokens::new(text) {
        judge(token)?;
    }
    Ok(())
}
