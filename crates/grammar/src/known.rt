// What a token is to the grammar.
ghost use Rattle.std.specs.Prelude.{◌≡◌, Bool};
ghost use Rattle.grammar.specs.Known.{rank as rank_of, is_mark, is_word, class_in, variable_of, reading_of, kind_of, number_of, comparison_of};
ghost use Rattle.letters.specs.Tokens.{Tok, seen};
ghost use Rattle.std.specs.Option.{option_map};

use crate::test::Comparison;
use letters::{Class, Symbol, Token, class_of, number_value};

// What a reader may want of a token: to be a symbol, or a word of a class.
pub trait Wanted: Copy {
    ghost test: { Self → Tok → Bool };

    fn matches(self, token: Token) -> bool
        ensures { result ≡ test self (seen token.entry) };
}

impl Wanted for Symbol {
    ghost test = { is_mark };

    fn matches(self, token: Token) -> bool {
        match token {
            Token::Mark(mark) => mark == self,
            _ => false,
        }
    }
}

impl Wanted for Class {
    ghost test = { is_word };

    fn matches(self, token: Token) -> bool {
        match token {
            Token::Word(word) => rank(class_of(word)) == rank(self),
            _ => false,
        }
    }
}

// The class of a word.
fn class_in(token: Token) -> Option<Class>
    ensures { result ≡ class_in (seen token.entry) }
{
    match token {
        Token::Word(word) => Some(class_of(word)),
        _ => None,
    }
}

pub(crate) fn variable_of(token: Token) -> Option<u8>
    ensures { result ≡ variable_of (seen token.entry) }
{
    match class_in(token)? {
        Class::Variable(letter) => Some(letter),
        _ => None,
    }
}

// Words of one class have one rank, whatever they hold. No plainer way: `==` would also compare what a reading or a variable holds, and the
// library has no `mem::discriminant`.
fn rank(class: Class) -> u8
    ensures { result ≡ rank_of class }
{
    match class {
        Class::Event => 0,
        Class::Seq => 1,
        Class::Where => 2,
        Class::Within => 3,
        Class::And => 4,
        Class::Or => 5,
        Class::Any => 6,
        Class::Key => 7,
        Class::Reading(_) => 8,
        Class::Variable(_) => 9,
        Class::Kind => 10,
    }
}

pub(crate) fn reading_of(token: Token) -> Option<u8>
    ensures { result ≡ reading_of (seen token.entry) }
{
    match class_in(token)? {
        Class::Reading(number) => Some(number),
        _ => None,
    }
}

pub(crate) fn kind_of<'a>(token: Token<'a>) -> Option<&'a [u8]>
    ensures { option_map (λ x. x.now) result ≡ kind_of (seen token.entry) }
{
    match token {
        Token::Word(word) => match class_of(word) {
            Class::Kind => Some(word),
            _ => None,
        },
        _ => None,
    }
}

pub(crate) fn number_of(token: Token) -> Option<u32>
    ensures { result ≡ number_of (seen token.entry) }
{
    match token {
        Token::Number(digits) => number_value(digits),
        _ => None,
    }
}

pub(crate) fn comparison_of(token: Token) -> Option<Comparison>
    ensures { result ≡ comparison_of (seen token.entry) }
{
    match token {
        Token::Mark(Symbol::Equal) => Some(Comparison::Equal),
        Token::Mark(Symbol::NotEqual) => Some(Comparison::NotEqual),
        Token::Mark(Symbol::Less) => Some(Comparison::Less),
        Token::Mark(Symbol::AtMost) => Some(Comparison::AtMost),
        Token::Mark(Symbol::Greater) => Some(Comparison::Greater),
        Token::Mark(Symbol::AtLeast) => Some(Comparison::AtLeast),
        _ => None,
    }
}
