// What is in a query, and when it changes.
use crate::outcome::said;
use crate::plain::{PlainItem, PlainStep, alike, plain_step};
use events::Kind;
use query::{Query, read};
use std::test::Fail;

const SEQUENCE: &[u8] =
    b"EVENT SEQ(!(ANY(DOORIN, DOOROUT) n), BADGEIN x, ANY(CLEANED, SEATON, CLEANED) b, !(FAULT z), STOP y) WITHIN 5";

// Its parts: whether they are negative, their kinds, and their variables.
const PARTS: [(bool, &[Kind], u8); 5] = [
    (true, &[Kind::DoorIn, Kind::DoorOut], b'n'),
    (false, &[Kind::BadgeIn], b'x'),
    (false, &[Kind::SeatOn, Kind::Cleaned], b'b'),
    (true, &[Kind::Fault], b'z'),
    (false, &[Kind::Stop], b'y'),
];

fn set_of(kinds: &[Kind]) -> [bool; 16] {
    let mut set = [false; 16];
    for kind in kinds {
        set[*kind as usize] = true;
    }
    set
}

#[test]
fn parts_are_as_written(rt: HostRuntime) {
    let mut query = Query::new();
    assert!(rt; read(SEQUENCE, &mut query).is_ok());
    assert_eq!(rt; query.parts().len(), PARTS.len());
    for (part, (negative, kinds, variable)) in query.parts().iter().zip(PARTS) {
        assert_eq!(rt; part.negative, negative);
        assert_eq!(rt; part.kinds, set_of(kinds));
        assert_eq!(rt; part.variable, variable);
    }
}

const CONDITION: &[u8] =
    b"EVENT SEQ(START x, !(PAUSE n), STOP y) WHERE (x.r0 = 1 OR y.r1 < -2 AND n.r2 >= x.r3) AND [key] AND x.r0 - -5 != -0 + y.r0 AND (1 <= 2 OR 3 > 4) WITHIN 5";

// Its clauses, each in postfix order. The parts x, n and y have the numbers 0, 1 and 2.
const STEPS: [PlainStep; 9] = [
    PlainStep::Test(
        (PlainItem::Of(0, 0), None),
        "=",
        (PlainItem::Number(1), None),
    ),
    PlainStep::Test(
        (PlainItem::Of(2, 1), None),
        "<",
        (PlainItem::Number(-2), None),
    ),
    PlainStep::Test(
        (PlainItem::Of(1, 2), None),
        ">=",
        (PlainItem::Of(0, 3), None),
    ),
    PlainStep::And,
    PlainStep::Or,
    PlainStep::Test(
        (PlainItem::Of(0, 0), Some(('-', PlainItem::Number(-5)))),
        "!=",
        (PlainItem::Number(0), Some(('+', PlainItem::Of(2, 0)))),
    ),
    PlainStep::Test(
        (PlainItem::Number(1), None),
        "<=",
        (PlainItem::Number(2), None),
    ),
    PlainStep::Test(
        (PlainItem::Number(3), None),
        ">",
        (PlainItem::Number(4), None),
    ),
    PlainStep::Or,
];

#[test]
fn conditions_are_in_postfix_order(rt: HostRuntime) {
    let mut query = Query::new();
    assert!(rt; read(CONDITION, &mut query).is_ok());
    assert!(rt; query.asks_key());
    assert_eq!(rt; query.ends(), [5, 6, 9].as_slice());
    assert_eq!(rt; query.steps().len(), STEPS.len());
    for (step, expected) in query.steps().iter().zip(STEPS) {
        assert_eq!(rt; plain_step(*step), expected);
    }
}

// A condition, and how its steps follow one another: tests (t), AND (&) and OR (|).
const ORDERS: [(&[u8], &str); 8] = [
    (b"EVENT SEQ(START x) WHERE 1=1 WITHIN 5", "t"),
    (
        b"EVENT SEQ(START x) WHERE 1=1 AND 2=2 AND 3=3 WITHIN 5",
        "ttt",
    ),
    (
        b"EVENT SEQ(START x) WHERE (1=1 AND 2=2 AND 3=3) WITHIN 5",
        "tt&t&",
    ),
    (
        b"EVENT SEQ(START x) WHERE (1=1 OR 2=2 OR 3=3) WITHIN 5",
        "tt|t|",
    ),
    (
        b"EVENT SEQ(START x) WHERE (1=1 OR (2=2 OR 3=3)) WITHIN 5",
        "ttt||",
    ),
    (
        b"EVENT SEQ(START x) WHERE (1=1 OR 2=2 AND 3=3) WITHIN 5",
        "ttt&|",
    ),
    (
        b"EVENT SEQ(START x) WHERE (1=1 AND 2=2 OR 3=3 AND 4=4) WITHIN 5",
        "tt&tt&|",
    ),
    (
        b"EVENT SEQ(START x) WHERE ((1=1 OR 2=2) AND 3=3) AND [key] AND (4=4 OR 5=5) WITHIN 5",
        "tt|t&tt|",
    ),
];

fn letter_of(step: PlainStep) -> u8 {
    match step {
        PlainStep::Test(_, _, _) => b't',
        PlainStep::And => b'&',
        PlainStep::Or => b'|',
    }
}

#[test]
fn operators_group_from_the_left(rt: HostRuntime) {
    for (text, order) in ORDERS {
        let mut query = Query::new();
        assert!(rt; read(text, &mut query).is_ok());
        assert_eq!(rt; query.steps().len(), order.len());
        for (step, letter) in query.steps().iter().zip(order.as_bytes()) {
            assert_eq!(rt; letter_of(plain_step(*step)), *letter);
        }
    }
}

#[test]
fn new_places_hold_the_shortest_query(rt: HostRuntime) {
    let mut query = Query::new();
    assert_eq!(rt; said(&query), (1, 0, 0, 0, 1, false));
    assert!(rt; read(CONDITION, &mut query).is_ok());
    assert!(rt; !alike(&query, &Query::new()));
    assert!(rt; read(b"EVENT SEQ(START a) WITHIN 1", &mut query).is_ok());
    assert!(rt; alike(&query, &Query::new()));
}

// Texts with faults, of each layer.
const REFUSED: [&[u8]; 7] = [
    b"",
    b"EVENT SEQ(STOP z) WITHIN 7 #",
    b"EVENT SEQ(STOP z) WITHIN 99999999999",
    b"EVENT SEQ(STOP z) WITHIN 7 7",
    b"EVENT SEQ(STOP z) WHERE (((((((((1=1))))))))) WITHIN 7",
    b"EVENT SEQ(STOP z) WHERE [key] AND y.r0 = 1 WITHIN 7",
    b"EVENT SEQ(STOP z) WITHIN 0",
];

#[test]
fn faults_leave_the_place_as_it_was(rt: HostRuntime) {
    let mut query = Query::new();
    assert!(rt; read(CONDITION, &mut query).is_ok());
    let before = query;
    for text in REFUSED {
        assert!(rt; read(text, &mut query).is_err());
        assert!(rt; alike(&query, &before));
    }
}
