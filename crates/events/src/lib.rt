// Events that consoles log, and the badge log that they come in.
#![tactic(auto)]

mod event;
mod kind;
mod log;
mod record;

pub use event::Event;
pub use kind::{Kind, UnknownKind, kind_word, words_differ};
pub use log::{Records, logs_have_one_reading};
pub use record::{RECORD_LEN, decode, encoding_is_inverse};
