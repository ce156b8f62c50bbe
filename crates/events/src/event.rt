// An event.
ghost use Rattle.events.specs.Event.{event_line, kind_text, readings_text};
ghost use Rattle.std.specs.Prelude.{Some};

use crate::kind::{Kind, UnknownKind};
use keys::Badge;
use std::fmt;

// What a console logged, with the time in tenths of a second.
#[derive(Clone, Copy)]
pub struct Event<K> {
    // a number and no `Kind`, since an offered event may hold one over 15: whoever takes events refuses it by a number of its own
    pub kind: u8,
    pub time: u32,
    pub key: K,
    pub readings: [i32; 4],
}

// The word of a kind, or the number of what is no kind, which an event may hold.
#[derive(Drop)]
struct KindText(u8);

impl fmt::Display for KindText {
    ghost output = { λ k. Some (kind_text k.0) };

    fn fmt<W: fmt::Write>(&self, f: &mut fmt::Formatter<W>) -> fmt::Result {
        match Kind::try_from(self.0) {
            Ok(kind) => write!(f, "{kind}"),
            Err(UnknownKind(number)) => write!(f, "{number}"),
        }
    }
}

// R0 R1 R2 R3
#[derive(Drop)]
struct ReadingsText([i32; 4]);

impl fmt::Display for ReadingsText {
    ghost output = { λ r. Some (readings_text r.0) };

    fn fmt<W: fmt::Write>(&self, f: &mut fmt::Formatter<W>) -> fmt::Result {
        let [r0, r1, r2, r3] = self.0;
        write!(f, "{r0} {r1} {r2} {r3}")
    }
}

// KIND TIME BADGE R0 R1 R2 R3
impl fmt::Display for Event<Badge> {
    ghost output = { λ e. Some (event_line e) };

    fn fmt<W: fmt::Write>(&self, f: &mut fmt::Formatter<W>) -> fmt::Result {
        let kind = KindText(self.kind);
        let time = self.time;
        let badge = self.key.number();
        // The readings are a text of their own: the proof of one `write!` with seven holes did not close.
        let readings = ReadingsText(self.readings);
        write!(f, "{kind} {time} {badge} {readings}")
    }
}
