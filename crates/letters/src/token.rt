// Tokens: stretches of a query text, each with its place.
ghost use Rattle.std.specs.Prelude.{◌≡◌, length};
ghost use Rattle.letters.specs.Bytes.{is_digit, is_letter, is_word, is_blank, SplitWhile};
ghost use Rattle.letters.specs.Tokens.{token_at, token_seen, past_blanks, tokens_of, placed, first_of, ahead, end_of, left, Cuts, reads};
ghost use Rattle.std.specs.Iterator.{at_most};
ghost use Rattle.std.specs.Option.{option_map};

use crate::symbol::{Symbol, first_symbol};

#[derive(Clone, Copy)]
pub enum Token<'a> {
    // letters and digits, a letter first
    Word(&'a [u8]),
    // digits
    Number(&'a [u8]),
    Mark(Symbol),
    // a byte that begins no token of a query
    Stray(u8),
}

// A token and its place: how many bytes of the text stand before it.
#[derive(Clone, Copy)]
pub struct Spanned<'a> {
    pub token: Token<'a>,
    pub place: usize,
}

fn digit(b: u8) -> bool
    ensures { result ≡ is_digit b }
{
    b.is_ascii_digit()
}

fn letter(b: u8) -> bool
    ensures { result ≡ is_letter b }
{
    b.is_ascii_alphabetic()
}

fn word_byte(b: u8) -> bool
    ensures { result ≡ is_word b }
{
    b.is_ascii_alphanumeric()
}

fn blank(b: u8) -> bool
    ensures { result ≡ is_blank b }
{
    matches!(b, 9 | 10 | 13 | b' ')
}

// The longest front of a text whose bytes all pass the test, and what follows it.
fn split_while<'a, F: Fn(u8) -> bool + Drop>(text: &'a [u8], test: F) -> (&'a [u8], &'a [u8])
    requires { F.IsAlwaysCallable test }
    ensures { SplitWhile (λ b r. F.post test b r) text.now result.0.now result.1.now }
{
    text.split_at(text.iter().take_while(|b| test(**b)).count())
}

// The token at the front of a text, and what follows it. A blank in front is taken for a stray byte.
#[tactic(auto, using(crate::proofs::Scanning::number_at, crate::proofs::Scanning::word_at, crate::proofs::Scanning::stray_at))]
pub(crate) fn first_token<'a>(text: &'a [u8]) -> Option<(Token<'a>, &'a [u8])>
    ensures { token_seen result ≡ token_at text.now }
{
    let [first, after @ ..] = text else {
        return None;
    };
    if digit(*first) {
        let (number, rest) = split_while(text, digit);
        return Some((Token::Number(number), rest));
    }
    if letter(*first) {
        let (word, rest) = split_while(text, word_byte);
        return Some((Token::Word(word), rest));
    }
    match first_symbol(text) {
        Some((symbol, rest)) => Some((Token::Mark(symbol), rest)),
        None => Some((Token::Stray(*first), after)),
    }
}

// What is left behind the blanks at the front.
#[tactic(auto, using(crate::proofs::Scanning::past_is))]
fn past_blanks(text: &[u8]) -> &[u8]
    ensures { result.now ≡ past_blanks text.now }
{
    let (_, rest) = split_while(text, blank);
    rest
}

// Gives the tokens of a text, one after another, each with its place in the whole text. It is a place in a text and may be copied: a reader that
// may find a fault goes on with a copy.
#[derive(Clone, Copy)]
pub struct Tokens<'a> {
    // what is left of the text
    rest: &'a [u8],
    // how many bytes the whole text has
    end: usize,
}

impl<'a> Tokens<'a> {
    pub fn new(text: &'a [u8]) -> Tokens<'a>
        ensures tokens { ahead result ≡ tokens_of (length text.now) text.now }
        ensures end { end_of result ≡ length text.now }
        ensures rest { left result ≡ text.now }
    {
        Tokens::of_rest(text, text.len())
    }

    // The tokens of what is left of a text that has `end` bytes in all.
    #[tactic(auto, unfolding(crate::specs::Tokens::ahead, crate::specs::Tokens::left, crate::specs::Tokens::end_of))]
    pub fn of_rest(rest: &'a [u8], end: usize) -> Tokens<'a>
        ensures tokens { ahead result ≡ tokens_of end rest.now }
        ensures end { end_of result ≡ end }
        ensures rest { left result ≡ rest.now }
    {
        Tokens { rest, end }
    }

    // How many bytes the whole text has.
    #[tactic(auto, unfolding(crate::specs::Tokens::end_of))]
    pub fn end(&self) -> usize
        ensures { result ≡ end_of self.now }
    {
        self.end
    }

    // What is left of the text.
    #[tactic(auto, unfolding(crate::specs::Tokens::left))]
    pub fn rest(&self) -> &'a [u8]
        ensures { result.now ≡ left self.now }
    {
        self.rest
    }

    // The next token, which stays ahead.
    pub fn peek(&self) -> Option<Spanned<'a>>
        ensures { option_map placed result ≡ first_of (ahead self.now) }
    {
        let (token, _) = self.cut()?;
        Some(token)
    }

    // The next token, and what lies behind it.
    fn cut(&self) -> Option<(Spanned<'a>, Tokens<'a>)>
        ensures { Cuts self.now result }
    {
        let text = past_blanks(self.rest());
        let end = self.end();
        let place = end.saturating_sub(text.len());
        let (token, rest) = first_token(text)?;
        Some((Spanned { token, place }, Tokens::of_rest(rest, end)))
    }
}

impl<'a> Iterator for Tokens<'a> {
    type Item = Spanned<'a>;

    ghost next_gives = { reads };

    ghost remaining = { λ s. at_most (length (ahead s)) };

    fn next(&mut self) -> Option<Spanned<'a>> {
        let (token, after) = self.cut()?;
        *self = after;
        Some(token)
    }
}
