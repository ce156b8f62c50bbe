// The letters of query texts.
use letters::{Class, Symbol, Token, Tokens, check_letters, class_of, number_value};

// A text, and the number and place of its fault, if it has one.
const TEXTS: [(&[u8], Option<(u8, usize)>); 22] = [
    (b"", None),
    (b" \t\r\n", None),
    (b"EVENT SEQ(JUMP x) WITHIN 5 #", Some((1, 27))),
    (
        b"EVENT SEQ(!(BADGEOUT n), START y) WHERE [key] WITHIN 600",
        None,
    ),
    (b"x.r0 + y.r0 != 5 <= >= < > = ! -", None),
    (b"a_b", Some((1, 1))),
    (b"\x0b", Some((1, 0))),
    (b"x \xc3\xa9", Some((1, 2))),
    (b"\xef\xbb\xbfEVENT", Some((1, 0))),
    (b"5x 12ab r0AND", None),
    (b"2147483647", None),
    (b"2147483648", Some((2, 0))),
    (b"00000000000000000000000000000000000000002147483647", None),
    (b"1 99999999999999999999999999999999 #", Some((2, 2))),
    (b"# 99999999999999999999999999999999", Some((1, 0))),
    (b"-2147483648", Some((2, 1))),
    (b"\x00", Some((1, 0))),
    (b"a\x0c", Some((1, 1))),
    (b"/", Some((1, 0))),
    (b":", Some((1, 0))),
    (b"@", Some((1, 0))),
    (b"`{", Some((1, 0))),
];

fn fault_of(text: &[u8]) -> Option<(u8, usize)> {
    let fault = check_letters(text).err()?;
    Some((fault.number(), fault.place()))
}

#[test]
fn texts_have_their_first_fault(rt: HostRuntime) {
    for (text, expected) in TEXTS {
        assert_eq!(rt; fault_of(text), expected);
    }
}

#[test]
fn length_comes_first(rt: HostRuntime) {
    let spaces = [b' '; 4097];
    assert_eq!(rt; fault_of(&spaces[0..4096]), None);
    let mut last = [b' '; 4096];
    last[4095] = b'#';
    assert_eq!(rt; fault_of(&last), Some((1, 4095)));
    let stray = [b'#'; 4097];
    for text in [&spaces, &stray] {
        assert_eq!(rt; fault_of(text), Some((3, 4096)));
    }
}

const CUT: &[u8] = b" 5AND WITHIN5\t! = !== =< <>\r\nx.r0--5<=12ab # ";

#[derive(Clone, Copy, PartialEq, Eq, Debug)]
enum Shape {
    Word,
    Number,
    Mark,
    Stray,
}

// The tokens of CUT: place, length and shape.
const TOKENS: [(usize, usize, Shape); 21] = [
    (1, 1, Shape::Number),
    (2, 3, Shape::Word),
    (6, 7, Shape::Word),
    (14, 1, Shape::Mark),
    (16, 1, Shape::Mark),
    (18, 2, Shape::Mark),
    (20, 1, Shape::Mark),
    (22, 1, Shape::Mark),
    (23, 1, Shape::Mark),
    (25, 1, Shape::Mark),
    (26, 1, Shape::Mark),
    (29, 1, Shape::Word),
    (30, 1, Shape::Mark),
    (31, 2, Shape::Word),
    (33, 1, Shape::Mark),
    (34, 1, Shape::Mark),
    (35, 1, Shape::Number),
    (36, 2, Shape::Mark),
    (38, 2, Shape::Number),
    (40, 2, Shape::Word),
    (43, 1, Shape::Stray),
];

fn shape_of(token: Token) -> Shape {
    match token {
        Token::Word(_) => Shape::Word,
        Token::Number(_) => Shape::Number,
        Token::Mark(_) => Shape::Mark,
        Token::Stray(_) => Shape::Stray,
    }
}

// The place of the next token, how many bytes are left behind it, and its shape.
fn next_of(tokens: &mut Tokens) -> Option<(usize, usize, Shape)> {
    let token = tokens.next()?;
    Some((token.place, tokens.rest().len(), shape_of(token.token)))
}

#[test]
fn texts_are_cut(rt: HostRuntime) {
    let mut tokens = Tokens::new(CUT);
    for (place, len, shape) in TOKENS {
        let left = CUT.len().saturating_sub(place).saturating_sub(len);
        assert_eq!(rt; next_of(&mut tokens), Some((place, left, shape)));
    }
    assert_eq!(rt; next_of(&mut tokens), None);
}

// A text of one symbol.
const SYMBOLS: [(&[u8], Symbol); 15] = [
    (b"(", Symbol::Open),
    (b")", Symbol::Close),
    (b",", Symbol::Comma),
    (b"!", Symbol::Not),
    (b".", Symbol::Dot),
    (b"[", Symbol::OpenSquare),
    (b"]", Symbol::CloseSquare),
    (b"+", Symbol::Plus),
    (b"-", Symbol::Minus),
    (b"=", Symbol::Equal),
    (b"!=", Symbol::NotEqual),
    (b"<", Symbol::Less),
    (b"<=", Symbol::AtMost),
    (b">", Symbol::Greater),
    (b">=", Symbol::AtLeast),
];

// The symbol that a text has, if it has one token and that is a symbol.
fn only_symbol(text: &[u8]) -> Option<Symbol> {
    let mut tokens = Tokens::new(text);
    match tokens.next()?.token {
        Token::Mark(symbol) if tokens.rest().is_empty() => Some(symbol),
        _ => None,
    }
}

#[test]
fn symbols_are_told_apart(rt: HostRuntime) {
    for (text, expected) in SYMBOLS {
        assert_eq!(rt; only_symbol(text), Some(expected));
    }
}

#[test]
fn values_end_at_the_largest(rt: HostRuntime) {
    assert_eq!(rt; number_value(b"0012"), Some(12));
    assert_eq!(rt; number_value(b"2147483647"), Some(2_147_483_647));
    assert_eq!(rt; number_value(b"2147483648"), None);
    assert_eq!(rt; number_value(b"99999999999999999999999999"), None);
}

#[test]
fn words_have_classes(rt: HostRuntime) {
    assert_eq!(rt; class_of(b"EVENT"), Class::Event);
    assert_eq!(rt; class_of(b"Event"), Class::Kind);
    assert_eq!(rt; class_of(b"WITHIN"), Class::Within);
    assert_eq!(rt; class_of(b"WITHIN5"), Class::Kind);
    assert_eq!(rt; class_of(b"key"), Class::Key);
    assert_eq!(rt; class_of(b"KEY"), Class::Kind);
    assert_eq!(rt; class_of(b"k"), Class::Variable(b'k'));
    assert_eq!(rt; class_of(b"K"), Class::Kind);
    assert_eq!(rt; class_of(b"r"), Class::Variable(b'r'));
    assert_eq!(rt; class_of(b"r0"), Class::Reading(0));
    assert_eq!(rt; class_of(b"r3"), Class::Reading(3));
    assert_eq!(rt; class_of(b"r4"), Class::Kind);
    assert_eq!(rt; class_of(b"SEQ"), Class::Seq);
    assert_eq!(rt; class_of(b"WHERE"), Class::Where);
    assert_eq!(rt; class_of(b"AND"), Class::And);
    assert_eq!(rt; class_of(b"OR"), Class::Or);
    assert_eq!(rt; class_of(b"ANY"), Class::Any);
    assert_eq!(rt; class_of(b"a"), Class::Variable(b'a'));
    assert_eq!(rt; class_of(b"z"), Class::Variable(b'z'));
}
