// What the parts of a text and its window may not be.
use crate::outcome::outcome;

// Texts with a word that is no kind, and its place.
const UNKNOWN: [(&[u8], usize); 18] = [
    (b"EVENT SEQ(JUMP x) WITHIN 5", 10),
    (b"EVENT SEQ(r4 x) WITHIN 5", 10),
    (b"EVENT SEQ(X x) WITHIN 5", 10),
    (b"EVENT SEQ(Start x) WITHIN 5", 10),
    (b"EVENT SEQ(KEY x) WITHIN 5", 10),
    (b"EVENT SEQ(start x) WITHIN 5", 10),
    (b"EVENT SEQ(rr x) WITHIN 5", 10),
    (b"EVENT SEQ(Event x) WITHIN 5", 10),
    (b"EVENT SEQ(BADGE x) WITHIN 5", 10),
    (b"EVENT SEQ(BADGEINN x) WITHIN 5", 10),
    (b"EVENT SEQ(START0 x) WITHIN 5", 10),
    (b"EVENT SEQ(!(JUMP n), START x) WITHIN 5", 12),
    (b"EVENT SEQ(ANY(JUMP) x) WITHIN 5", 14),
    (b"EVENT SEQ(ANY(START, JUMP) x) WITHIN 5", 21),
    (
        b"EVENT SEQ(START x, ANY(STOP, RUN, JUMP) y, HOP z) WITHIN 5",
        29,
    ),
    (b"EVENT SEQ(START x, JUMP x) WITHIN 5", 19),
    (b"EVENT SEQ(START x, JUMP y, STOP x) WITHIN 5", 19),
    (b"EVENT SEQ(JUMP x) WHERE y.r0 = 1 WITHIN 0", 10),
];

#[test]
fn kinds_are_unknown(rt: HostRuntime) {
    for (text, place) in UNKNOWN {
        assert_eq!(rt; outcome(text), Err((6, "sense", place)), "at {place}");
    }
}

// Texts with a variable that stands twice, and the place where it does again.
const DOUBLED: [(&[u8], usize); 10] = [
    (b"EVENT SEQ(START x, STOP x) WITHIN 5", 24),
    (b"EVENT SEQ(START x, START x) WITHIN 5", 25),
    (b"EVENT SEQ(!(STOP x), START x) WITHIN 5", 27),
    (b"EVENT SEQ(START x, !(STOP x), START y) WITHIN 5", 26),
    (b"EVENT SEQ(START x, STOP x, START x) WITHIN 5", 24),
    (b"EVENT SEQ(START x, STOP y, SPLIT y, PAUSE x) WITHIN 5", 33),
    (b"EVENT SEQ(START x, STOP x, JUMP y) WITHIN 5", 24),
    (
        b"EVENT SEQ(START x, !(STOP n), ANY(STOP, START) y, !(STOP n), START z) WITHIN 5",
        57,
    ),
    (b"EVENT SEQ(START x, STOP x) WHERE y.r0 = 1 WITHIN 0", 24),
    (
        b"EVENT SEQ(START a, START a, START c, START d, START e, START f, START g) WITHIN 5",
        25,
    ),
];

#[test]
fn variables_are_doubled(rt: HostRuntime) {
    for (text, place) in DOUBLED {
        assert_eq!(rt; outcome(text), Err((7, "sense", place)), "at {place}");
    }
}

// Texts with a part that is one too many, or negative at the end, and its place.
const SHAPE: [(&[u8], usize); 16] = [
    (
        b"EVENT SEQ(START a, START b, START c, START d, START e, START f, START g) WITHIN 5",
        64,
    ),
    (
        b"EVENT SEQ(START a, START b, START c, START d, START e, START f, ANY(START, STOP) g) WITHIN 5",
        64,
    ),
    (
        b"EVENT SEQ(START a, START b, START c, START d, START e, START f, START g, START h, !(STOP n)) WITHIN 5",
        64,
    ),
    (
        b"EVENT SEQ(START a, START b, START c, START d, START e, START f, !(STOP n), START g) WITHIN 5",
        75,
    ),
    (b"EVENT SEQ(!(STOP n), !(STOP m), START x) WITHIN 5", 21),
    (
        b"EVENT SEQ(!(STOP n), !(STOP m), !(STOP k), START x) WITHIN 5",
        21,
    ),
    (
        b"EVENT SEQ(START x, !(STOP n), !(ANY(STOP, PAUSE) m), START y) WITHIN 5",
        30,
    ),
    (b"EVENT SEQ(START x, !(STOP n)) WITHIN 5", 19),
    (b"EVENT SEQ(START x, !(STOP n), !(STOP m)) WITHIN 5", 30),
    (b"EVENT SEQ(!(STOP n)) WITHIN 5", 10),
    (b"EVENT SEQ(!(STOP n), !(STOP m)) WITHIN 5", 21),
    (b"EVENT SEQ(!(STOP n), START x, !(STOP m)) WITHIN 5", 30),
    (
        b"EVENT SEQ(START n, !(STOP m), !(STOP n), START x) WITHIN 5",
        30,
    ),
    (b"EVENT SEQ(!(STOP n), !(JUMP m), START x) WITHIN 5", 21),
    (b"EVENT SEQ(START x, !(STOP n)) WHERE y.r0 = 1 WITHIN 0", 19),
    (
        b"EVENT SEQ(START a, START b, START c, START d, START e, START f, !(STOP n)) WITHIN 5",
        64,
    ),
];

#[test]
fn parts_are_misplaced(rt: HostRuntime) {
    for (text, place) in SHAPE {
        assert_eq!(rt; outcome(text), Err((9, "sense", place)), "at {place}");
    }
}

// Texts with a window that is out of range, and its place.
const WINDOW: [(&[u8], usize); 5] = [
    (b"EVENT SEQ(START x) WITHIN 0", 26),
    (b"EVENT SEQ(START x) WITHIN 000", 26),
    (b"EVENT SEQ(START x) WITHIN 864001", 26),
    (b"EVENT SEQ(START x) WITHIN 2147483647", 26),
    (
        b"EVENT SEQ(START x, STOP y) WHERE [key] AND (x.r0 = 1 OR y.r0 = 2) WITHIN \n 0864001 ",
        75,
    ),
];

#[test]
fn windows_are_out_of_range(rt: HostRuntime) {
    for (text, place) in WINDOW {
        assert_eq!(rt; outcome(text), Err((12, "sense", place)), "at {place}");
    }
}
