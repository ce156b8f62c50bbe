// Wrong tokens in conditions, and how deep these nest.
use crate::outcome::{Refused, Said, outcome};

// Texts with a wrong token around their tests, and its place.
const CLAUSES: [(&[u8], usize); 35] = [
    (b"EVENT SEQ(START x) WHERE WITHIN 5", 25),
    (b"EVENT SEQ(START x) WHERE AND 1 = 1 WITHIN 5", 25),
    (b"EVENT SEQ(START x) WHERE 1 = 1 AND WITHIN 5", 35),
    (b"EVENT SEQ(START x) WHERE 1 = 1 AND AND 2 = 2 WITHIN 5", 35),
    (b"EVENT SEQ(START x) WHERE 1=1 OR 2=2 WITHIN 5", 29),
    (b"EVENT SEQ(START x) WHERE (1=1) OR 2=2 WITHIN 5", 31),
    (b"EVENT SEQ(START x) WHERE (1=1 OR 2=2) OR 3=3 WITHIN 5", 38),
    (b"EVENT SEQ(START x) WHERE 1=1 AND 2=2 OR 3=3 WITHIN 5", 37),
    (b"EVENT SEQ(START x) WHERE [key] OR 1=1 WITHIN 5", 31),
    (b"EVENT SEQ(START x) WHERE ([key]) WITHIN 5", 26),
    (b"EVENT SEQ(START x) WHERE (([key])) WITHIN 5", 27),
    (b"EVENT SEQ(START x) WHERE [x] WITHIN 5", 26),
    (b"EVENT SEQ(START x) WHERE [KEY] WITHIN 5", 26),
    (b"EVENT SEQ(START x) WHERE [key AND 1 = 1 WITHIN 5", 30),
    (b"EVENT SEQ(START x) WHERE [key, key] WITHIN 5", 29),
    (b"EVENT SEQ(START x) WHERE key = 1 WITHIN 5", 25),
    (b"EVENT SEQ(START x) WHERE [key].r0 = 1 WITHIN 5", 30),
    (b"EVENT SEQ(START x) WHERE [key] [key] WITHIN 5", 31),
    (b"EVENT SEQ(START x) WHERE [key], 1 = 1 WITHIN 5", 30),
    (b"EVENT SEQ(START x) WHERE (x.r0) = 1 WITHIN 5", 30),
    (b"EVENT SEQ(START x) WHERE (1) = 1 WITHIN 5", 27),
    (b"EVENT SEQ(START x) WHERE (x.r0 + 1) = 1 WITHIN 5", 34),
    (b"EVENT SEQ(START x) WHERE 1 = (x.r0) WITHIN 5", 29),
    (b"EVENT SEQ(START x) WHERE () WITHIN 5", 26),
    (b"EVENT SEQ(START x) WHERE (1 = 1 WITHIN 5", 32),
    (b"EVENT SEQ(START x) WHERE 1 = 1) WITHIN 5", 30),
    (b"EVENT SEQ(START x) WHERE (1 = 1)) WITHIN 5", 32),
    (b"EVENT SEQ(START x) WHERE (1 = 1 OR ) WITHIN 5", 35),
    (b"EVENT SEQ(START x) WHERE (OR 1 = 1) WITHIN 5", 26),
    (b"EVENT SEQ(START x) WHERE (1 = 1 (2 = 2)) WITHIN 5", 32),
    (b"EVENT SEQ(START x) WHERE (1 = 1) (2 = 2) WITHIN 5", 33),
    (b"EVENT SEQ(START x) WHERE !(x.r0 = 1) WITHIN 5", 25),
    (b"EVENT SEQ(START x) WHERE START = 1 WITHIN 5", 25),
    (b"EVENT SEQ(START x) WHERE r0 = 1 WITHIN 5", 25),
    (b"EVENT SEQ(START x) WHERE , 1 = 1 WITHIN 5", 25),
];

#[test]
fn clauses_have_wrong_tokens(rt: HostRuntime) {
    for (text, place) in CLAUSES {
        assert_eq!(rt; outcome(text), Err((4, "grammar", place)), "at {place}");
    }
}

// Texts with a wrong token in a test, and its place.
const TESTS: [(&[u8], usize); 42] = [
    (b"EVENT SEQ(START x) WHERE +5 = 5 WITHIN 5", 25),
    (b"EVENT SEQ(START x) WHERE --5 = 5 WITHIN 5", 26),
    (b"EVENT SEQ(START x) WHERE -x.r0 = 5 WITHIN 5", 26),
    (b"EVENT SEQ(START x) WHERE 5 = +5 WITHIN 5", 29),
    (b"EVENT SEQ(START x) WHERE 5 = --5 WITHIN 5", 30),
    (b"EVENT SEQ(START x) WHERE 5 = -x.r0 WITHIN 5", 30),
    (b"EVENT SEQ(START x) WHERE x.r0 - --5 = 1 WITHIN 5", 33),
    (b"EVENT SEQ(START x) WHERE x.r0 + +5 = 1 WITHIN 5", 32),
    (b"EVENT SEQ(START x) WHERE x.r0 - +5 = 1 WITHIN 5", 32),
    (b"EVENT SEQ(START x) WHERE -(5) = 5 WITHIN 5", 26),
    (b"EVENT SEQ(START x) WHERE -= 5 WITHIN 5", 26),
    (b"EVENT SEQ(START x) WHERE x = 1 WITHIN 5", 27),
    (b"EVENT SEQ(START x) WHERE x.y = 1 WITHIN 5", 27),
    (b"EVENT SEQ(START x) WHERE x.5 = 1 WITHIN 5", 27),
    (b"EVENT SEQ(START x) WHERE x.r4 = 1 WITHIN 5", 27),
    (b"EVENT SEQ(START x) WHERE x.key = 1 WITHIN 5", 27),
    (b"EVENT SEQ(START x) WHERE x.= 1 WITHIN 5", 27),
    (b"EVENT SEQ(START x) WHERE x.r0.r1 = 1 WITHIN 5", 29),
    (b"EVENT SEQ(START x) WHERE X.r0 = 1 WITHIN 5", 25),
    (b"EVENT SEQ(START x) WHERE 1.r0 = 1 WITHIN 5", 26),
    (b"EVENT SEQ(START x) WHERE x r0 = 1 WITHIN 5", 27),
    (b"EVENT SEQ(START x) WHERE 1 + 2 + 3 = 6 WITHIN 5", 31),
    (b"EVENT SEQ(START x) WHERE 1 = 1 + 1 - 1 WITHIN 5", 35),
    (b"EVENT SEQ(START x) WHERE 1 - 2 - 3 = 6 WITHIN 5", 31),
    (b"EVENT SEQ(START x) WHERE 1 AND 2 = 2 WITHIN 5", 27),
    (b"EVENT SEQ(START x) WHERE 1 WITHIN 5", 27),
    (b"EVENT SEQ(START x) WHERE (1) WITHIN 5", 27),
    (b"EVENT SEQ(START x) WHERE 1 == 1 WITHIN 5", 28),
    (b"EVENT SEQ(START x) WHERE 1 ! = 1 WITHIN 5", 27),
    (b"EVENT SEQ(START x) WHERE 1 <> 2 WITHIN 5", 28),
    (b"EVENT SEQ(START x) WHERE 1 =< 2 WITHIN 5", 28),
    (b"EVENT SEQ(START x) WHERE 1 <== 2 WITHIN 5", 29),
    (b"EVENT SEQ(START x) WHERE 1 = 2 = 3 WITHIN 5", 31),
    (b"EVENT SEQ(START x) WHERE 1 < 2 < 3 WITHIN 5", 31),
    (b"EVENT SEQ(START x) WHERE x.r0 y.r0 = 1 WITHIN 5", 30),
    (b"EVENT SEQ(START x) WHERE x.r0 5 = 1 WITHIN 5", 30),
    (b"EVENT SEQ(START x) WHERE 5x.r0 = 1 WITHIN 5", 26),
    (b"EVENT SEQ(START x) WHERE 1 = WITHIN 5", 29),
    (b"EVENT SEQ(START x) WHERE 1 = 1 1 = 1 WITHIN 5", 31),
    (b"EVENT SEQ(START x) WHERE 1 = START WITHIN 5", 29),
    (b"EVENT SEQ(START x) WHERE 1 = [key] WITHIN 5", 29),
    (b"EVENT SEQ(START x) WHERE 1 + = 1 WITHIN 5", 29),
];

#[test]
fn tests_have_wrong_tokens(rt: HostRuntime) {
    for (text, place) in TESTS {
        assert_eq!(rt; outcome(text), Err((4, "grammar", place)), "at {place}");
    }
}

// Texts with a parenthesis at depth 9, or a wrong token before one, and the fault.
const DEEP: [(&[u8], Refused); 12] = [
    (
        b"EVENT SEQ(START x) WHERE (((((((((1=1))))))))) WITHIN 5",
        (5, "grammar", 33),
    ),
    (b"EVENT SEQ(START x) WHERE (((((((((", (5, "grammar", 33)),
    (b"EVENT SEQ(START x) WHERE ((((((((()", (5, "grammar", 33)),
    (
        b"EVENT SEQ(START x) WHERE ((((((((((((1=1",
        (5, "grammar", 33),
    ),
    (b"EVENT SEQ(START x) WHERE ((((((((1=(", (4, "grammar", 35)),
    (
        b"EVENT SEQ(START x) WHERE ((((((((1=1 (",
        (4, "grammar", 37),
    ),
    (
        b"EVENT SEQ(START x) WHERE (((((((1=1 AND (2=2 OR (3=3))))))))) WITHIN 5",
        (5, "grammar", 48),
    ),
    (
        b"EVENT SEQ(START x) WHERE ((((((((1=1)))))))) AND (((((((((2=2))))))))) WITHIN 5",
        (5, "grammar", 57),
    ),
    (
        b"EVENT SEQ(START x) WHERE ((((((((1=1) AND (1=1 AND (2=2))))))))) WITHIN 5",
        (5, "grammar", 51),
    ),
    (
        b"EVENT SEQ(START x) WHERE (1 1 AND ((((((((2=2))))))))) WITHIN 5",
        (4, "grammar", 28),
    ),
    (
        b"EVENT SEQ(START x) WHERE (((((((((1=1 1)))))))) WITHIN 5",
        (5, "grammar", 33),
    ),
    (
        b"EVENT SEQ(JUMP x) WHERE (((((((((y.r0=1 WITHIN 0",
        (5, "grammar", 32),
    ),
];

#[test]
fn parentheses_are_too_deep(rt: HostRuntime) {
    for (text, expected) in DEEP {
        assert_eq!(rt; outcome(text), Err(expected));
    }
}

// Texts with parentheses at depth 8, and what they say.
const EIGHT: [(&[u8], Said); 5] = [
    (
        b"EVENT SEQ(START x) WHERE ((((((((1=1)))))))) WITHIN 5",
        (1, 0, 1, 1, 5, false),
    ),
    (
        b"EVENT SEQ(START x) WHERE ((((((((1=1)))))))) AND ((((((((2=2)))))))) WITHIN 5",
        (1, 0, 2, 2, 5, false),
    ),
    (
        b"EVENT SEQ(START x) WHERE ((((((((1=1) OR (2=2)))))))) WITHIN 5",
        (1, 0, 1, 2, 5, false),
    ),
    (
        b"EVENT SEQ(START x) WHERE (((((((1=1 AND (2=2) AND (3=3)))))))) WITHIN 5",
        (1, 0, 1, 3, 5, false),
    ),
    (
        b"EVENT SEQ(!(ANY(STOP) n), START x) WHERE ((((((((1=1)))))))) WITHIN 5",
        (1, 1, 1, 1, 5, false),
    ),
];

#[test]
fn parentheses_are_eight_deep(rt: HostRuntime) {
    for (text, expected) in EIGHT {
        assert_eq!(rt; outcome(text), Ok(expected));
    }
}
