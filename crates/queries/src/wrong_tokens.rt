// Wrong tokens.
use crate::outcome::outcome;

// Texts of blanks, and texts that end too soon: each ends where it has its fault.
const ENDED: [&[u8]; 20] = [
    b"",
    b"   ",
    b" \t\r\n",
    b"EVENT",
    b"EVENT SEQ",
    b"EVENT SEQ(",
    b"EVENT SEQ(START",
    b"EVENT SEQ(START x",
    b"EVENT SEQ(START x,",
    b"EVENT SEQ(START x)",
    b"EVENT SEQ(START x)\n",
    b"EVENT SEQ(ANY(START, STOP",
    b"EVENT SEQ(!(JUMP n) ",
    b"EVENT SEQ(START x) WITHIN",
    b"EVENT SEQ(START x) WITHIN \r\n",
    b"EVENT SEQ(START x) WHERE",
    b"EVENT SEQ(START x) WHERE [key] AND",
    b"EVENT SEQ(START x) WHERE [key",
    b"EVENT SEQ(START x) WHERE (x.r0 = -",
    b"EVENT SEQ(START x) WHERE (x.r0 = y.r0  ",
];

#[test]
fn texts_end_too_soon(rt: HostRuntime) {
    for text in ENDED {
        assert_eq!(rt; outcome(text), Err((4, "grammar", text.len())));
    }
}

// Texts with a wrong token among their parts, and its place.
const PARTS: [(&[u8], usize); 45] = [
    (b"event SEQ(START x) WITHIN 5", 0),
    (b"SEQ(START x) WITHIN 5", 0),
    (b"EVENT (START x) WITHIN 5", 6),
    (b"EVENT SEQ START x WITHIN 5", 10),
    (b"EVENT SEQ[START x] WITHIN 5", 9),
    (b"EVENT SEQ() WITHIN 5", 10),
    (b"EVENT SEQ(key x) WITHIN 5", 10),
    (b"EVENT SEQ(r0 x) WITHIN 5", 10),
    (b"EVENT SEQ(x y) WITHIN 5", 10),
    (b"EVENT SEQ(AND x) WITHIN 5", 10),
    (b"EVENT SEQ(EVENT x) WITHIN 5", 10),
    (b"EVENT SEQ(5 x) WITHIN 5", 10),
    (b"EVENT SEQ([key]) WITHIN 5", 10),
    (b"EVENT SEQ(START) WITHIN 5", 15),
    (b"EVENT SEQ(START X) WITHIN 5", 16),
    (b"EVENT SEQ(START xy) WITHIN 5", 16),
    (b"EVENT SEQ(START r0) WITHIN 5", 16),
    (b"EVENT SEQ(START key) WITHIN 5", 16),
    (b"EVENT SEQ(START 5) WITHIN 5", 16),
    (b"EVENT SEQ(START STOP x) WITHIN 5", 16),
    (b"EVENT SEQ(START x STOP y) WITHIN 5", 18),
    (b"EVENT SEQ(START x.r0) WITHIN 5", 17),
    (b"EVENT SEQ(START x, ) WITHIN 5", 19),
    (b"EVENT SEQ(START x,, STOP y) WITHIN 5", 18),
    (b"EVENT SEQ(, START x) WITHIN 5", 10),
    (b"EVENT SEQ((START x)) WITHIN 5", 10),
    (b"EVENT SEQ(!START x, STOP y) WITHIN 5", 11),
    (b"EVENT SEQ(!(!(START x)), STOP y) WITHIN 5", 12),
    (b"EVENT SEQ(!(START x, STOP y), STOP z) WITHIN 5", 19),
    (b"EVENT SEQ(!(), STOP y) WITHIN 5", 12),
    (b"EVENT SEQ(!(START), STOP y) WITHIN 5", 17),
    (b"EVENT SEQ(!= START x) WITHIN 5", 10),
    (b"EVENT SEQ(!(START n)x, START y) WITHIN 5", 20),
    (b"EVENT SEQ(ANY START x) WITHIN 5", 14),
    (b"EVENT SEQ(ANY() x) WITHIN 5", 14),
    (b"EVENT SEQ(ANY(START STOP) x) WITHIN 5", 20),
    (b"EVENT SEQ(ANY(START,) x) WITHIN 5", 20),
    (b"EVENT SEQ(ANY(ANY(START)) x) WITHIN 5", 14),
    (b"EVENT SEQ(ANY(x) y) WITHIN 5", 14),
    (b"EVENT SEQ(ANY(r3) y) WITHIN 5", 14),
    (b"EVENT SEQ(ANY(START)) WITHIN 5", 20),
    (b"EVENT SEQ(ANY(START x) y) WITHIN 5", 20),
    (b"EVENT SEQ(any(START) x) WITHIN 5", 13),
    (b"EVENT SEQ(JUMP JUMP) WITHIN 5", 15),
    (b"EVENT SEQ(x) WITHIN 5", 10),
];

#[test]
fn parts_have_wrong_tokens(rt: HostRuntime) {
    for (text, place) in PARTS {
        assert_eq!(rt; outcome(text), Err((4, "grammar", place)), "at {place}");
    }
}

// Texts with a wrong token behind their parts, and its place.
const BEHIND: [(&[u8], usize); 17] = [
    (b"EVENT SEQ(START x) 5", 19),
    (b"EVENT SEQ(START x) WITHIN5", 19),
    (b"EVENT SEQ(START x) STOP y WITHIN 5", 19),
    (b"EVENT SEQ(START x) WITHIN x", 26),
    (b"EVENT SEQ(START x) WITHIN -5", 26),
    (b"EVENT SEQ(START x) WITHIN WITHIN 5", 26),
    (b"EVENT SEQ(START x) WITHIN 5 5", 28),
    (b"EVENT SEQ(START x) WITHIN 5x", 27),
    (b"EVENT SEQ(START x) WITHIN 5.5", 27),
    (b"EVENT SEQ(START x) WITHIN 5 AND 1 = 1", 28),
    (b"EVENT SEQ(START x) WITHIN 5 WHERE 1 = 1", 28),
    (
        b"EVENT SEQ(START x) WITHIN 5 EVENT SEQ(START x) WITHIN 5",
        28,
    ),
    (b"EVENT SEQ(START x)) WITHIN 5", 18),
    (b"EVENT SEQ(START x) AND 1 = 1 WITHIN 5", 19),
    (b"EVENT SEQ(START x), STOP y WITHIN 5", 18),
    (b"EVENT SEQ(START x) WITHIN 0 0", 28),
    (b"EVENT SEQ(JUMP x) WITHIN 5 5", 27),
];

#[test]
fn wrong_tokens_follow_parts(rt: HostRuntime) {
    for (text, place) in BEHIND {
        assert_eq!(rt; outcome(text), Err((4, "grammar", place)), "at {place}");
    }
}
