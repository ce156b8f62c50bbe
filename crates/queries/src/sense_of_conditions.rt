// What the conditions of a text may not be, and faults that share a place.
use crate::outcome::{Refused, Said, outcome};

// Texts with a variable that no part has, and the first place where one is used.
const UNBOUND: [(&[u8], usize); 14] = [
    (b"EVENT SEQ(START x) WHERE y.r0 = 1 WITHIN 5", 25),
    (b"EVENT SEQ(START x) WHERE 1 = y.r0 WITHIN 5", 29),
    (b"EVENT SEQ(START x) WHERE x.r0 = y.r0 WITHIN 5", 32),
    (b"EVENT SEQ(START x) WHERE x.r0 + y.r0 = 1 WITHIN 5", 32),
    (b"EVENT SEQ(START x) WHERE x.r0 - y.r0 > z.r0 WITHIN 5", 32),
    (b"EVENT SEQ(START x) WHERE a.r0 = b.r0 WITHIN 5", 25),
    (b"EVENT SEQ(START x) WHERE b.r0 = a.r0 WITHIN 5", 25),
    (b"EVENT SEQ(START x) WHERE [key] AND 1 = y.r3 WITHIN 5", 39),
    (
        b"EVENT SEQ(START x) WHERE (1 = 1 OR -5 < q.r1) WITHIN 5",
        40,
    ),
    (
        b"EVENT SEQ(START x) WHERE ((1 = 1) AND (y.r0 = 1 OR z.r0 = 1)) WITHIN 5",
        39,
    ),
    (
        b"EVENT SEQ(START x) WHERE x.r0 = 1 AND y.r0 = 1 WITHIN 0",
        38,
    ),
    (
        b"EVENT SEQ(START x, !(STOP n), STOP y) WHERE n.r0 = 1 AND m.r0 = 1 WITHIN 5",
        57,
    ),
    (b"EVENT SEQ(START x) WHERE 1 - r.r0 = 1 WITHIN 5", 29),
    (b"EVENT SEQ(START x) WHERE 1 = 1 - k.r0 WITHIN 5", 33),
];

#[test]
fn variables_are_unbound(rt: HostRuntime) {
    for (text, place) in UNBOUND {
        assert_eq!(rt; outcome(text), Err((8, "sense", place)), "at {place}");
    }
}

// Texts with a 25th test, and its place.
const MANY: [(&[u8], usize); 9] = [
    (
        b"EVENT SEQ(START x) WHERE 1=1 AND 1=1 AND 1=1 AND 1=1 AND 1=1 AND 1=1 AND 1=1 AND 1=1 AND 1=1 AND 1=1 AND 1=1 AND 1=1 AND 1=1 AND 1=1 AND 1=1 AND 1=1 AND 1=1 AND 1=1 AND 1=1 AND 1=1 AND 1=1 AND 1=1 AND 1=1 AND 1=1 AND 2=2 WITHIN 5",
        217,
    ),
    (
        b"EVENT SEQ(START x) WHERE 1=1 AND 1=1 AND 1=1 AND 1=1 AND 1=1 AND 1=1 AND 1=1 AND 1=1 AND 1=1 AND 1=1 AND 1=1 AND 1=1 AND 1=1 AND 1=1 AND 1=1 AND 1=1 AND 1=1 AND 1=1 AND 1=1 AND 1=1 AND 1=1 AND 1=1 AND 1=1 AND 1=1 AND (2=2 OR 3=3) WITHIN 5",
        218,
    ),
    (
        b"EVENT SEQ(START x) WHERE 1=1 AND 1=1 AND 1=1 AND 1=1 AND 1=1 AND 1=1 AND 1=1 AND 1=1 AND 1=1 AND 1=1 AND 1=1 AND 1=1 AND 1=1 AND 1=1 AND 1=1 AND 1=1 AND 1=1 AND 1=1 AND 1=1 AND 1=1 AND 1=1 AND 1=1 AND 1=1 AND 1=1 AND ((2=2)) WITHIN 5",
        219,
    ),
    (
        b"EVENT SEQ(START x) WHERE 1=1 AND 1=1 AND 1=1 AND 1=1 AND 1=1 AND 1=1 AND 1=1 AND 1=1 AND 1=1 AND 1=1 AND 1=1 AND 1=1 AND 1=1 AND 1=1 AND 1=1 AND 1=1 AND 1=1 AND 1=1 AND 1=1 AND 1=1 AND 1=1 AND 1=1 AND 1=1 AND 1=1 AND -2 = x.r0 WITHIN 5",
        217,
    ),
    (
        b"EVENT SEQ(START x) WHERE 1=1 AND 1=1 AND 1=1 AND 1=1 AND 1=1 AND 1=1 AND 1=1 AND 1=1 AND 1=1 AND 1=1 AND 1=1 AND 1=1 AND 1=1 AND 1=1 AND 1=1 AND 1=1 AND 1=1 AND 1=1 AND 1=1 AND 1=1 AND 1=1 AND 1=1 AND 1=1 AND 1=1 AND x.r0 = 2 WITHIN 5",
        217,
    ),
    (
        b"EVENT SEQ(START x) WHERE 1=1 AND 1=1 AND 1=1 AND 1=1 AND 1=1 AND 1=1 AND 1=1 AND 1=1 AND 1=1 AND 1=1 AND 1=1 AND 1=1 AND 1=1 AND 1=1 AND 1=1 AND 1=1 AND 1=1 AND 1=1 AND 1=1 AND 1=1 AND 1=1 AND 1=1 AND 1=1 AND 1=1 AND 2 = y.r0 WITHIN 5",
        217,
    ),
    (
        b"EVENT SEQ(START x) WHERE 1=1 AND 1=1 AND 1=1 AND 1=1 AND 1=1 AND 1=1 AND 1=1 AND 1=1 AND 1=1 AND 1=1 AND 1=1 AND 1=1 AND 1=1 AND 1=1 AND 1=1 AND 1=1 AND 1=1 AND 1=1 AND 1=1 AND 1=1 AND 1=1 AND 1=1 AND 1=1 AND 1=1 AND [key] AND 2=2 AND 3=3 WITHIN 5",
        227,
    ),
    (
        b"EVENT SEQ(START x) WHERE (1=1 OR 1=1 OR 1=1 OR 1=1 OR 1=1 OR 1=1 OR 1=1 OR 1=1 OR 1=1 OR 1=1 OR 1=1 OR 1=1 OR 1=1 OR 1=1 OR 1=1 OR 1=1 OR 1=1 OR 1=1 OR 1=1 OR 1=1 OR 1=1 OR 1=1 OR 1=1 OR 1=1 AND 2=2) WITHIN 5",
        195,
    ),
    (
        b"EVENT SEQ(START x) WHERE 1=1 AND 1=1 AND 1=1 AND 1=1 AND 1=1 AND 1=1 AND 1=1 AND 1=1 AND 1=1 AND 1=1 AND 1=1 AND 1=1 AND 1=1 AND 1=1 AND 1=1 AND 1=1 AND 1=1 AND 1=1 AND 1=1 AND 1=1 AND 1=1 AND 1=1 AND 1=1 AND 1=1 AND 2=2 WITHIN 0",
        217,
    ),
];

#[test]
fn tests_are_many(rt: HostRuntime) {
    for (text, place) in MANY {
        assert_eq!(rt; outcome(text), Err((10, "sense", place)), "at {place}");
    }
}

// Texts with a clause that uses two negative variables, and its place.
const TWO: [(&[u8], usize); 10] = [
    (
        b"EVENT SEQ(!(STOP n), START x, !(PAUSE m), STOP y) WHERE n.r0 = m.r0 WITHIN 5",
        56,
    ),
    (
        b"EVENT SEQ(!(STOP n), START x, !(PAUSE m), STOP y) WHERE (n.r0 = 1 OR m.r0 = 1) WITHIN 5",
        56,
    ),
    (
        b"EVENT SEQ(!(STOP n), START x, !(PAUSE m), STOP y) WHERE (n.r0 = 1 AND m.r0 = 1) WITHIN 5",
        56,
    ),
    (
        b"EVENT SEQ(!(STOP n), START x, !(PAUSE m), STOP y) WHERE x.r0 = n.r0 - m.r0 WITHIN 5",
        56,
    ),
    (
        b"EVENT SEQ(!(STOP n), START x, !(PAUSE m), STOP y) WHERE -5 < n.r0 + m.r0 WITHIN 5",
        56,
    ),
    (
        b"EVENT SEQ(!(STOP n), START x, !(PAUSE m), STOP y) WHERE n.r0 = 1 AND (m.r0 = 1 OR n.r0 = 2) WITHIN 5",
        69,
    ),
    (
        b"EVENT SEQ(!(STOP n), START x, !(PAUSE m), STOP y) WHERE [key] AND n.r0 = m.r0 AND m.r0 = n.r0 WITHIN 5",
        66,
    ),
    (
        b"EVENT SEQ(!(STOP n), START x, !(PAUSE m), STOP y) WHERE (1 = 1 OR (n.r0 = 1 AND (y.r0 = 2 OR m.r3 = 1))) WITHIN 5",
        56,
    ),
    (
        b"EVENT SEQ(!(STOP n), START x, !(PAUSE m), STOP y) WHERE ((m.r0 = 1 OR n.r0 = 1) AND m.r0 = 1) WITHIN 0",
        56,
    ),
    (
        b"EVENT SEQ(!(STOP n), START x, !(PAUSE m), STOP y) WHERE m.r0 + n.r0 = z.r0 WITHIN 5",
        56,
    ),
];

#[test]
fn negatives_are_two(rt: HostRuntime) {
    for (text, place) in TWO {
        assert_eq!(rt; outcome(text), Err((11, "sense", place)), "at {place}");
    }
}

// Texts with several faults at one place or nearly so, and the one that is answered.
const TIES: [(&[u8], Refused); 11] = [
    (
        b"EVENT SEQ(START a, START b, START c, START d, START e, START f, JUMP g) WITHIN 5",
        (6, "sense", 64),
    ),
    (
        b"EVENT SEQ(START a, START b, START c, START d, START e, START f, ANY(JUMP) g) WITHIN 5",
        (9, "sense", 64),
    ),
    (
        b"EVENT SEQ(START x) WHERE 1=1 AND 1=1 AND 1=1 AND 1=1 AND 1=1 AND 1=1 AND 1=1 AND 1=1 AND 1=1 AND 1=1 AND 1=1 AND 1=1 AND 1=1 AND 1=1 AND 1=1 AND 1=1 AND 1=1 AND 1=1 AND 1=1 AND 1=1 AND 1=1 AND 1=1 AND 1=1 AND 1=1 AND y.r0 = 1 WITHIN 5",
        (8, "sense", 217),
    ),
    (
        b"EVENT SEQ(START x) WHERE 1=1 AND 1=1 AND 1=1 AND 1=1 AND 1=1 AND 1=1 AND 1=1 AND 1=1 AND 1=1 AND 1=1 AND 1=1 AND 1=1 AND 1=1 AND 1=1 AND 1=1 AND 1=1 AND 1=1 AND 1=1 AND 1=1 AND 1=1 AND 1=1 AND 1=1 AND 1=1 AND 1=1 AND 1 = y.r0 WITHIN 5",
        (10, "sense", 217),
    ),
    (
        b"EVENT SEQ(!(STOP n), START x, !(PAUSE m), STOP y) WHERE z.r0 = n.r0 + m.r0 WITHIN 5",
        (8, "sense", 56),
    ),
    (
        b"EVENT SEQ(!(STOP n), START x, !(PAUSE m), STOP y) WHERE (z.r0 = n.r0 + m.r0) WITHIN 5",
        (11, "sense", 56),
    ),
    (
        b"EVENT SEQ(!(STOP n), START x, !(PAUSE m), STOP y) WHERE 1=1 AND 1=1 AND 1=1 AND 1=1 AND 1=1 AND 1=1 AND 1=1 AND 1=1 AND 1=1 AND 1=1 AND 1=1 AND 1=1 AND 1=1 AND 1=1 AND 1=1 AND 1=1 AND 1=1 AND 1=1 AND 1=1 AND 1=1 AND 1=1 AND 1=1 AND 1=1 AND 1=1 AND n.r0 = m.r0 WITHIN 5",
        (10, "sense", 248),
    ),
    (
        b"EVENT SEQ(!(STOP n), START x, !(PAUSE m), STOP y) WHERE 1=1 AND 1=1 AND 1=1 AND 1=1 AND 1=1 AND 1=1 AND 1=1 AND 1=1 AND 1=1 AND 1=1 AND 1=1 AND 1=1 AND 1=1 AND 1=1 AND 1=1 AND 1=1 AND 1=1 AND 1=1 AND 1=1 AND 1=1 AND 1=1 AND 1=1 AND 1=1 AND 1=1 AND (n.r0 = m.r0) WITHIN 5",
        (11, "sense", 248),
    ),
    (
        b"EVENT SEQ(!(STOP n), START x, !(PAUSE m), STOP y) WHERE 1=1 AND 1=1 AND 1=1 AND 1=1 AND 1=1 AND 1=1 AND 1=1 AND 1=1 AND 1=1 AND 1=1 AND 1=1 AND 1=1 AND 1=1 AND 1=1 AND 1=1 AND 1=1 AND 1=1 AND 1=1 AND 1=1 AND 1=1 AND 1=1 AND 1=1 AND 1=1 AND 1=1 AND z.r0 = n.r0 + m.r0 WITHIN 5",
        (8, "sense", 248),
    ),
    (b"EVENT SEQ(JUMP x) WITHIN 0 #", (1, "letters", 27)),
    (b"EVENT SEQ(JUMP x) WITHIN 0 0", (4, "grammar", 27)),
];

#[test]
fn one_fault_is_answered(rt: HostRuntime) {
    for (text, expected) in TIES {
        assert_eq!(rt; outcome(text), Err(expected));
    }
}

// Texts that just keep the limits, and what they say.
const EDGES: [(&[u8], Said); 10] = [
    (
        b"EVENT SEQ(START x) WHERE 1=1 AND 1=1 AND 1=1 AND 1=1 AND 1=1 AND 1=1 AND 1=1 AND 1=1 AND 1=1 AND 1=1 AND 1=1 AND 1=1 AND 1=1 AND 1=1 AND 1=1 AND 1=1 AND 1=1 AND 1=1 AND 1=1 AND 1=1 AND 1=1 AND 1=1 AND 1=1 AND 1=1 WITHIN 5",
        (1, 0, 24, 24, 5, false),
    ),
    (
        b"EVENT SEQ(START x) WHERE [key] AND 1=1 AND 1=1 AND 1=1 AND 1=1 AND 1=1 AND 1=1 AND 1=1 AND 1=1 AND 1=1 AND 1=1 AND 1=1 AND 1=1 AND 1=1 AND 1=1 AND 1=1 AND 1=1 AND 1=1 AND 1=1 AND 1=1 AND 1=1 AND 1=1 AND 1=1 AND 1=1 AND 1=1 AND [key] WITHIN 5",
        (1, 0, 24, 24, 5, true),
    ),
    (
        b"EVENT SEQ(START x) WHERE (1=1 OR 1=1 OR 1=1 OR 1=1 OR 1=1 OR 1=1 OR 1=1 OR 1=1 OR 1=1 OR 1=1 OR 1=1 OR 1=1 OR 1=1 OR 1=1 OR 1=1 OR 1=1 OR 1=1 OR 1=1 OR 1=1 OR 1=1 OR 1=1 OR 1=1 OR 1=1 OR 1=1) WITHIN 5",
        (1, 0, 1, 24, 5, false),
    ),
    (
        b"EVENT SEQ(!(STOP n), START x, !(PAUSE m), STOP y) WHERE n.r0 = 1 AND m.r0 = 1 WITHIN 5",
        (2, 2, 2, 2, 5, false),
    ),
    (
        b"EVENT SEQ(!(STOP n), START x, !(PAUSE m), STOP y) WHERE (n.r0 = 1 OR n.r1 = x.r0 AND y.r2 = n.r3) WITHIN 5",
        (2, 2, 1, 3, 5, false),
    ),
    (
        b"EVENT SEQ(!(STOP n), START x, !(PAUSE m), STOP y) WHERE (m.r0 = m.r1 OR 1 = 1) AND (n.r0 = n.r1) WITHIN 5",
        (2, 2, 2, 3, 5, false),
    ),
    (b"EVENT SEQ(START x) WITHIN 1", (1, 0, 0, 0, 1, false)),
    (
        b"EVENT SEQ(START x) WITHIN 864000",
        (1, 0, 0, 0, 864_000, false),
    ),
    (
        b"EVENT SEQ(START a, START b, START c, START d, START e, START f) WITHIN 5",
        (6, 0, 0, 0, 5, false),
    ),
    (
        b"EVENT SEQ(!(STOP m), START a, !(STOP n), START b, !(STOP o), START c, !(STOP p), START d, !(STOP q), START e, !(STOP r), START f) WITHIN 5",
        (6, 6, 0, 0, 5, false),
    ),
];

#[test]
fn limits_are_kept(rt: HostRuntime) {
    for (text, expected) in EDGES {
        assert_eq!(rt; outcome(text), Ok(expected));
    }
}
