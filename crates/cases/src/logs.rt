// Records and logs.
use events::{Event, Records, decode};
use keys::Badge;
use std::test::Fail;

// BADGEOUT at 15, badge 4711, readings 1, -1, 2147483647 and -2147483648.
const RECORD: [u8; 24] = [
    0x10, 0x00, 0x00, 0x00, 0xF0, 0x00, 0x12, 0x67, 0x00, 0x00, 0x00, 0x01, 0xFF, 0xFF, 0xFF, 0xFF,
    0x7F, 0xFF, 0xFF, 0xFF, 0x80, 0x00, 0x00, 0x00,
];

#[test]
fn record_has_its_fields(rt: HostRuntime) {
    let event = decode(&RECORD);
    assert_eq!(rt; event.kind, 1);
    assert_eq!(rt; event.time, 15);
    assert_eq!(rt; event.key.number(), 4711);
    assert_eq!(rt; event.readings, [1, -1, 2_147_483_647, -2_147_483_648]);
}

#[test]
fn all_bits_and_none(rt: HostRuntime) {
    let event = decode(&[0xFF; 24]);
    assert_eq!(rt; event.kind, 15);
    assert_eq!(rt; event.time, 4_294_967_295);
    assert_eq!(rt; event.key.number(), 268_435_455);
    assert_eq!(rt; event.readings, [-1; 4]);
    let event = decode(&[0; 24]);
    assert_eq!(rt; event.kind, 0);
    assert_eq!(rt; event.time, 0);
    assert_eq!(rt; event.key.number(), 0);
    assert_eq!(rt; event.readings, [0; 4]);
}

// A length of a log, how many records it has, and how many tails.
const LENGTHS: [(usize, usize, usize); 8] = [
    (0, 0, 0),
    (1, 0, 1),
    (23, 0, 1),
    (24, 1, 0),
    (25, 1, 1),
    (47, 1, 1),
    (48, 2, 0),
    (71, 2, 1),
];

#[test]
fn logs_have_records_and_tails(rt: HostRuntime) {
    let log = [0x40; 72];
    for (len, records, tails) in LENGTHS {
        assert!(rt; len <= log.len());
        let part = &log[0..len];
        for item in Records::new(part) {
            match item {
                Ok(event) => assert_eq!(rt; event.kind, 4),
                Err(refusal) => assert_eq!(rt; refusal.number(), 24),
            }
        }
        let whole = Records::new(part).filter(|item| item.is_ok()).count();
        assert_eq!(rt; whole, records);
        let refused = Records::new(part).filter(|item| item.is_err()).count();
        assert_eq!(rt; refused, tails);
    }
}

#[test]
fn events_are_written_out(rt: HostRuntime) -> Result<(), Fail> {
    let event = decode(&RECORD);
    assert_eq!(rt;
        event.to_string(rt.alloc())?.as_str(),
        "BADGEOUT 15 4711 1 -1 2147483647 -2147483648"
    );
    let key = Badge::new(7)?;
    let strange = Event {
        kind: 16,
        time: 1,
        key,
        readings: [0; 4],
    };
    assert_eq!(rt; strange.to_string(rt.alloc())?.as_str(), "16 1 7 0 0 0 0");
    Ok(())
}
