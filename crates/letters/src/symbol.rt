// The symbols of a query.
ghost use Rattle.std.specs.Prelude.{◌≡◌};
ghost use Rattle.letters.specs.Symbols.{symbol_at, symbol_seen};

#[derive(Clone, Copy, PartialEq, Eq, Debug)]
pub enum Symbol {
    Open,
    Close,
    Comma,
    Not,
    Dot,
    OpenSquare,
    CloseSquare,
    Plus,
    Minus,
    Equal,
    NotEqual,
    Less,
    AtMost,
    Greater,
    AtLeast,
}

// The longest symbol at the front of the text, and what follows it.
pub(crate) fn first_symbol(text: &[u8]) -> Option<(Symbol, &[u8])>
    ensures { symbol_seen result ≡ symbol_at text.now }
{
    match text {
        [b'!', b'=', rest @ ..] => Some((Symbol::NotEqual, rest)),
        [b'<', b'=', rest @ ..] => Some((Symbol::AtMost, rest)),
        [b'>', b'=', rest @ ..] => Some((Symbol::AtLeast, rest)),
        [b'(', rest @ ..] => Some((Symbol::Open, rest)),
        [b')', rest @ ..] => Some((Symbol::Close, rest)),
        [b',', rest @ ..] => Some((Symbol::Comma, rest)),
        [b'!', rest @ ..] => Some((Symbol::Not, rest)),
        [b'.', rest @ ..] => Some((Symbol::Dot, rest)),
        [b'[', rest @ ..] => Some((Symbol::OpenSquare, rest)),
        [b']', rest @ ..] => Some((Symbol::CloseSquare, rest)),
        [b'+', rest @ ..] => Some((Symbol::Plus, rest)),
        [b'-', rest @ ..] => Some((Symbol::Minus, rest)),
        [b'=', rest @ ..] => Some((Symbol::Equal, rest)),
        [b'<', rest @ ..] => Some((Symbol::Less, rest)),
        [b'>', rest @ ..] => Some((Symbol::Greater, rest)),
        _ => None,
    }
}
