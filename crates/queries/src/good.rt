// Texts that are queries, and what they say.
use crate::outcome::{Said, outcome};
use crate::plain::read_alike;

// Texts and what they say.
const GOOD: [(&[u8], Said); 21] = [
    (b"EVENT SEQ(START x) WITHIN 5", (1, 0, 0, 0, 5, false)),
    (
        b"EVENT SEQ(BADGEIN x, !(BADGEOUT n), START y) WHERE [key] WITHIN 600",
        (2, 1, 0, 0, 600, true),
    ),
    (
        b"EVENT SEQ(START a, STOP b) WITHIN 100",
        (2, 0, 0, 0, 100, false),
    ),
    (
        b"EVENT SEQ(!(DOORIN n), START x) WITHIN 50",
        (1, 1, 0, 0, 50, false),
    ),
    (
        b"EVENT SEQ(SPLIT x, SPLIT y) WHERE x.r0 + y.r0 > 1000 WITHIN 9",
        (2, 0, 1, 1, 9, false),
    ),
    (
        b"\n EVENT\tSEQ\r\n( START\tx )\nWITHIN\r5 \n",
        (1, 0, 0, 0, 5, false),
    ),
    (
        b"EVENT SEQ(START x)WHERE[key]AND x.r0=5AND(1=1OR-1<=2)WITHIN 5",
        (1, 0, 2, 3, 5, true),
    ),
    (
        b"EVENT SEQ(START x) WHERE [key] AND [ key ] AND [key] WITHIN 5",
        (1, 0, 0, 0, 5, true),
    ),
    (
        b"EVENT SEQ(START x) WHERE x.r0 = 1 AND [key] WITHIN 5",
        (1, 0, 1, 1, 5, true),
    ),
    (
        b"EVENT SEQ(START x) WHERE 1 = 2 WITHIN 5",
        (1, 0, 1, 1, 5, false),
    ),
    (
        b"EVENT SEQ(START x) WHERE x.r0 < 000000000000000000002147483647 WITHIN 5",
        (1, 0, 1, 1, 5, false),
    ),
    (
        b"EVENT SEQ(START x) WHERE - 2147483647 < x.r0 WITHIN 5",
        (1, 0, 1, 1, 5, false),
    ),
    (
        b"EVENT SEQ(START x) WHERE x.r0 - -5 = 0 WITHIN 5",
        (1, 0, 1, 1, 5, false),
    ),
    (
        b"EVENT SEQ(START x) WHERE x.r0--5=0 WITHIN 5",
        (1, 0, 1, 1, 5, false),
    ),
    (
        b"EVENT SEQ(START x) WHERE x.r0 -5 = x.r1+ -5 WITHIN 5",
        (1, 0, 1, 1, 5, false),
    ),
    (
        b"EVENT SEQ(START x) WHERE -0 = 0 - 0 WITHIN 5",
        (1, 0, 1, 1, 5, false),
    ),
    (
        b"EVENT SEQ(START x) WHERE (((x.r0 = 1))) AND ((x.r1 = 1) OR (x.r2 = 1) AND x.r3 = 1) WITHIN 5",
        (1, 0, 2, 4, 5, false),
    ),
    (
        b"EVENT SEQ(START x) WITHIN 000000000000000000864000",
        (1, 0, 0, 0, 864_000, false),
    ),
    (b"EVENT SEQ(ANY(START) x) WITHIN 5", (1, 0, 0, 0, 5, false)),
    (
        b"EVENT SEQ(ANY(START, START) x) WITHIN 5",
        (1, 0, 0, 0, 5, false),
    ),
    (
        b"EVENT SEQ(!(ANY(STOP, PAUSE, STOP) r), ANY(START, STOP) k) WITHIN 5",
        (1, 1, 0, 0, 5, false),
    ),
];

#[test]
fn texts_are_queries(rt: HostRuntime) {
    for (text, expected) in GOOD {
        assert_eq!(rt; outcome(text), Ok(expected));
    }
}

// Two texts that say the same.
const ALIKE: [(&[u8], &[u8]); 8] = [
    (
        b"EVENT SEQ(START x) WITHIN 5",
        b"EVENT\tSEQ ( START x ) WITHIN 0005\n",
    ),
    (
        b"EVENT SEQ(ANY(START, STOP) x) WITHIN 5",
        b"EVENT SEQ(ANY(STOP, START, STOP) x) WITHIN 5",
    ),
    (
        b"EVENT SEQ(ANY(START) x) WITHIN 5",
        b"EVENT SEQ(START x) WITHIN 5",
    ),
    (
        b"EVENT SEQ(START x) WHERE [key] AND 1 = 2 AND [key] WITHIN 5",
        b"EVENT SEQ(START x) WHERE 1 = 2 AND [key] WITHIN 5",
    ),
    (
        b"EVENT SEQ(START x) WHERE (1 = 1 AND 2 = 2 OR 3 = 3) WITHIN 5",
        b"EVENT SEQ(START x) WHERE (((1 = 1) AND 2 = 2) OR (3 = 3)) WITHIN 5",
    ),
    (
        b"EVENT SEQ(START x) WHERE (1 = 1 OR 2 = 2 OR 3 = 3) WITHIN 5",
        b"EVENT SEQ(START x) WHERE ((1 = 1 OR 2 = 2) OR 3 = 3) WITHIN 5",
    ),
    (
        b"EVENT SEQ(START x) WHERE ((x.r0 = 1)) WITHIN 5",
        b"EVENT SEQ(START x) WHERE x.r0=1 WITHIN 5",
    ),
    (
        b"EVENT SEQ(START x) WHERE -0 = x.r0--5 WITHIN 5",
        b"EVENT SEQ(START x) WHERE 0 = x.r0 - - 05 WITHIN 5",
    ),
];

#[test]
fn texts_say_the_same(rt: HostRuntime) {
    for (one, other) in ALIKE {
        assert_eq!(rt; read_alike(one, other), Some(true));
    }
}

// Two texts that do not read the same.
const UNLIKE: [(&[u8], &[u8]); 11] = [
    (
        b"EVENT SEQ(START x) WITHIN 5",
        b"EVENT SEQ(STOP x) WITHIN 5",
    ),
    (
        b"EVENT SEQ(START x) WITHIN 5",
        b"EVENT SEQ(START y) WITHIN 5",
    ),
    (
        b"EVENT SEQ(START x) WITHIN 5",
        b"EVENT SEQ(START x) WITHIN 6",
    ),
    (
        b"EVENT SEQ(START x) WITHIN 5",
        b"EVENT SEQ(START x) WHERE [key] WITHIN 5",
    ),
    (
        b"EVENT SEQ(!(START x), START y) WITHIN 5",
        b"EVENT SEQ(START x, START y) WITHIN 5",
    ),
    (
        b"EVENT SEQ(START x) WHERE 1 = 1 AND 2 = 2 WITHIN 5",
        b"EVENT SEQ(START x) WHERE (1 = 1 AND 2 = 2) WITHIN 5",
    ),
    (
        b"EVENT SEQ(START x) WHERE (1 = 1 OR 2 = 2 OR 3 = 3) WITHIN 5",
        b"EVENT SEQ(START x) WHERE (1 = 1 OR (2 = 2 OR 3 = 3)) WITHIN 5",
    ),
    (
        b"EVENT SEQ(START x) WHERE x.r0 - 5 = 0 WITHIN 5",
        b"EVENT SEQ(START x) WHERE x.r0 + -5 = 0 WITHIN 5",
    ),
    (
        b"EVENT SEQ(START x) WHERE x.r0 - 5 = 0 WITHIN 5",
        b"EVENT SEQ(START x) WHERE x.r0 - -5 = 0 WITHIN 5",
    ),
    (
        b"EVENT SEQ(START x) WHERE x.r0 < 0 WITHIN 5",
        b"EVENT SEQ(START x) WHERE x.r0 <= 0 WITHIN 5",
    ),
    (
        b"EVENT SEQ(START x) WHERE x.r0 < 0 WITHIN 5",
        b"EVENT SEQ(START x) WHERE x.r1 < 0 WITHIN 5",
    ),
];

#[test]
fn texts_read_differently(rt: HostRuntime) {
    for (one, other) in UNLIKE {
        assert_eq!(rt; read_alike(one, other), Some(false));
    }
}
