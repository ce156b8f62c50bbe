// Badges and kinds.
use events::kind_word;
use keys::{Badge, Key};
use refusals::Refusal;
use std::test::Fail;

// A number, and the shelf of its badge or the refusal's number.
const BADGES: [(u32, Result<u8, u8>); 7] = [
    (0, Ok(0)),
    (15, Ok(15)),
    (16, Ok(0)),
    (4711, Ok(7)),
    (268_435_455, Ok(15)),
    (268_435_456, Err(21)),
    (4_294_967_295, Err(21)),
];

#[test]
fn badges_are_made_or_refused(rt: HostRuntime) {
    for (number, expected) in BADGES {
        match Badge::new(number) {
            Ok(badge) => {
                assert_eq!(rt; badge.number(), number);
                assert_eq!(rt; Ok(badge.shelf()), expected);
            }
            Err(refusal) => assert_eq!(rt; Err(refusal.number()), expected),
        }
    }
}

#[test]
fn badges_are_the_same_by_number(rt: HostRuntime) -> Result<(), Fail> {
    let a = Badge::new(4711)?;
    let b = Badge::new(4711)?;
    let c = Badge::new(4711 + 16)?;
    assert!(rt; a.same(&b));
    assert!(rt; !a.same(&c));
    assert_eq!(rt; a.shelf(), c.shelf());
    Ok(())
}

#[test]
fn kinds_have_words(rt: HostRuntime) {
    assert_eq!(rt; kind_word(0), Some("BADGEIN"));
    assert_eq!(rt; kind_word(4), Some("START"));
    assert_eq!(rt; kind_word(15), Some("CLEANED"));
    assert_eq!(rt; kind_word(16), None);
    assert_eq!(rt; kind_word(255), None);
}

#[test]
fn refusals_have_numbers(rt: HostRuntime) {
    assert_eq!(rt; Refusal::Badge.number(), 21);
    assert_eq!(rt; Refusal::NameLength.number(), 22);
    assert_eq!(rt; Refusal::CodePoint.number(), 23);
    assert_eq!(rt; Refusal::Tail.number(), 24);
}
