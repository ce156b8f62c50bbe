// A badge log, record after record.
ghost use Rattle.std.specs.Prelude.{◌≡◌, length};
ghost use Rattle.events.specs.Log.{reads, unread, WholeLog};
ghost use Rattle.std.specs.Iterator.{at_most};

use crate::event::Event;
use crate::record::{RECORD_LEN, decode};
use keys::Badge;
use refusals::Refusal;

// Reads a log from its front: an event for each record, and at 1 to 23 bytes a refusal, with which the log ends.
#[derive(Drop)]
pub struct Records<'a> {
    rest: &'a [u8],
}

impl<'a> Records<'a> {
    pub fn new(log: &'a [u8]) -> Records<'a>
        ensures { unread result ≡ log.now }
    {
        Records { rest: log }
    }
}

impl<'a> Iterator for Records<'a> {
    type Item = Result<Event<Badge>, Refusal>;

    ghost next_gives = { reads };

    ghost remaining = { λ s. at_most (length (unread s)) };

    fn next(&mut self) -> Option<Result<Event<Badge>, Refusal>> {
        let log = self.rest;
        match log.split_first_chunk::<RECORD_LEN>() {
            Some((record, rest)) => {
                self.rest = rest;
                Some(Ok(decode(record)))
            }
            None if log.is_empty() => None,
            None => {
                self.rest = &[];
                Some(Err(Refusal::Tail))
            }
        }
    }
}

// Each log has one reading, and that is what calls of `next` give until `None`.
#[tactic(auto, using(crate::proofs::Logs::whole_log))]
pub fn logs_have_one_reading()
    ensures { WholeLog }
{}
