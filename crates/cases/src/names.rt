// Names.
use keys::{Key, Name};
use refusals::Refusal;
use std::test::Fail;

// The number of the refusal, where there is no name.
fn refused(made: Result<Name, Refusal>) -> Option<u8> {
    made.err().map(|refusal| refusal.number())
}

// A name of one code point, and the refusal's number.
const POINTS: [(u32, Option<u8>); 9] = [
    (0, None),
    (0x41, None),
    (0xD7FF, None),
    (0xD800, Some(23)),
    (0xDFFF, Some(23)),
    (0xE000, None),
    (0x10_FFFF, None),
    (0x11_0000, Some(23)),
    (0xFFFF_FFFF, Some(23)),
];

#[test]
fn code_points_are_allowed_or_refused(rt: HostRuntime) {
    for (point, expected) in POINTS {
        assert_eq!(rt; refused(Name::new(&[point])), expected);
        assert_eq!(rt; refused(Name::new(&[0x41, point, 0x42])), expected);
    }
}

#[test]
fn lengths_come_first(rt: HostRuntime) {
    assert_eq!(rt; refused(Name::new(&[])), Some(22));
    assert_eq!(rt; refused(Name::new(&[0xE9; 24])), None);
    assert_eq!(rt; refused(Name::new(&[0xE9; 25])), Some(22));
    assert_eq!(rt; refused(Name::new(&[0xD800; 24])), Some(23));
    assert_eq!(rt; refused(Name::new(&[0xD800; 25])), Some(22));
    assert_eq!(rt; refused(Name::from_text("")), Some(22));
    assert_eq!(rt; refused(Name::from_text("éééééééééééééééééééééééé")), None);
    assert_eq!(rt;
        refused(Name::from_text("ééééééééééééééééééééééééé")),
        Some(22)
    );
}

// Two texts, and whether they are one name.
const PAIRS: [(&str, &str, bool); 8] = [
    ("José", "Jose\u{301}", true),
    ("José", "Jose", false),
    ("José", "josé", false),
    ("Ç", "C\u{327}", true),
    ("ÿ", "y\u{308}", true),
    ("ø", "o", false),
    ("e\u{301}\u{327}", "e\u{327}\u{301}", false),
    ("é\u{327}", "e\u{301}\u{327}", true),
];

#[test]
fn spellings_are_one_name_or_two(rt: HostRuntime) -> Result<(), Fail> {
    for (a, b, expected) in PAIRS {
        let first = Name::from_text(a)?;
        let second = Name::from_text(b)?;
        assert_eq!(rt; first.same(&second), expected);
        assert_eq!(rt; second.same(&first), expected);
        assert!(rt; first.same(&first));
        if expected {
            assert_eq!(rt; first.shelf(), second.shelf());
        }
    }
    Ok(())
}

#[test]
fn acute_e_is_on_shelf_six(rt: HostRuntime) -> Result<(), Fail> {
    let one = Name::new(&[0xE9])?;
    let two = Name::new(&[0x65, 0x301])?;
    assert!(rt; one.same(&two));
    assert_eq!(rt; one.shelf(), 6);
    assert_eq!(rt; two.shelf(), 6);
    assert!(rt; one.spelling() == &[0xE9][..]);
    assert!(rt; two.spelling() == &[0x65, 0x301][..]);
    assert!(rt; one.identity() == &[0x65, 0x301][..]);
    Ok(())
}

#[test]
fn text_spells_its_code_points(rt: HostRuntime) -> Result<(), Fail> {
    let name = Name::from_text("Zoë 🚣")?;
    assert!(rt; name.spelling() == &[0x5A, 0x6F, 0xEB, 0x20, 0x1F6A3][..]);
    assert!(rt; name.identity() == &[0x5A, 0x6F, 0x65, 0x308, 0x20, 0x1F6A3][..]);
    Ok(())
}
