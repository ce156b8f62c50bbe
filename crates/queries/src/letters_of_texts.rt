// Faults in the letters.
use crate::outcome::outcome;

// Texts with a stray byte, and its place.
const STRAY: [(&[u8], usize); 16] = [
    (b"# EVENT SEQ(START x) WITHIN 5", 0),
    (b"EVENT SEQ(JUMP x) WITHIN 5 #", 27),
    (b"EVENT SEQ(START x); WITHIN 5", 18),
    (b"EVENT SEQ(BADGE_IN x) WITHIN 5", 15),
    (b"EVENT SEQ(START x) WITHIN 5\x0b", 27),
    (b"EVENT SEQ(START x) WITHIN 5\x0c", 27),
    (b"EVENT SEQ(START x) WITHIN 5\x00", 27),
    (b"\xef\xbb\xbfEVENT SEQ(START x) WITHIN 5", 0),
    (b"EVENT SEQ(ST\xc3\x84RT x) WITHIN 5", 12),
    (b"EVENT SEQ(START x) WHERE x.r0 * 2 = 4 WITHIN 5", 30),
    (b"EVENT SEQ{START x} WITHIN 5", 9),
    (b") #", 2),
    (b"# 99999999999", 0),
    (b"EVENT SEQ(START x) WITHIN 0 ?", 28),
    (b"EVENT SEQ(START x) \xa0WITHIN 5", 19),
    (b"EVENT SEQ(START x) WHERE x.r0 = \"5\" WITHIN 5", 32),
];

#[test]
fn bytes_are_stray(rt: HostRuntime) {
    for (text, place) in STRAY {
        assert_eq!(rt; outcome(text), Err((1, "letters", place)), "at {place}");
    }
}

// Texts with a number over the largest, and its place.
const LONG: [(&[u8], usize); 7] = [
    (b"EVENT SEQ(START x) WITHIN 2147483648", 26),
    (b"EVENT SEQ(START x) WITHIN 00000000002147483648", 26),
    (b"EVENT SEQ(START x) WITHIN 99999999999999999999999999", 26),
    (b"EVENT SEQ(START x) WHERE x.r0 = -2147483648 WITHIN 5", 33),
    (b"4294967296 #", 0),
    (b"EVENT SEQ(START x) WITHIN 5 4294967301", 28),
    (b"EVENT SEQ(JUMP x) WITHIN 0 2147483648x", 27),
];

#[test]
fn numbers_are_long(rt: HostRuntime) {
    for (text, place) in LONG {
        assert_eq!(rt; outcome(text), Err((2, "letters", place)), "at {place}");
    }
}

const SHORT: &[u8] = b"EVENT SEQ(START x) WITHIN 5";

#[test]
fn texts_are_long(rt: HostRuntime) {
    let mut text = [b' '; 4097];
    text[..27].copy_from_slice(SHORT);
    assert_eq!(rt; outcome(&text[..4096]), Ok((1, 0, 0, 0, 5, false)));
    assert_eq!(rt; outcome(&text), Err((3, "letters", 4096)));
    text[4096] = b'#';
    assert_eq!(rt; outcome(&text), Err((3, "letters", 4096)));
    text[0] = b'#';
    assert_eq!(rt; outcome(&text), Err((3, "letters", 4096)));
    assert_eq!(rt; outcome(&text[..4096]), Err((1, "letters", 0)));
}

#[test]
fn queries_end_at_the_last_byte(rt: HostRuntime) {
    let mut text = [b'\n'; 4097];
    text[4069..4096].copy_from_slice(SHORT);
    assert_eq!(rt; outcome(&text[..4096]), Ok((1, 0, 0, 0, 5, false)));
    text[4095] = b'0';
    assert_eq!(rt; outcome(&text[..4096]), Err((12, "sense", 4095)));
    text[4095] = b'#';
    assert_eq!(rt; outcome(&text[..4096]), Err((1, "letters", 4095)));
}
