// The text for a piece of the log.
ghost use Rattle.std.specs.Prelude.{◌≡◌, ◌++◌, IfOk, string_bytes};
ghost use Rattle.events.specs.Log.{log_of};
ghost use Rattle.showlog.specs.Lines.{log_text, records_after, Piecewise};

use crate::lines::Numbered;
use events::Records;
use refusals::Refused;
use std::fmt;

// Appends a line for each record of the log and for its tail, and answers how many records there are now; there were
// `before` of them before it.
pub fn describe(text: &mut String, log: &[u8], before: u64) -> Result<u64, fmt::Error>
    ensures { IfOk result (λ n. (string_bytes text.new ≡ string_bytes text.old ++ log_text before (log_of log.now)) × (n ≡ records_after before (log_of log.now))) }
{
    // Counted by hand: `enumerate` would go on beyond the largest number, and count the tail.
    let mut records = before;
    for item in Records::new(log) {
        let number = records.saturating_add(1);
        match item {
            Ok(event) => {
                let line = Numbered { number, event };
                writeln!(text, "{line}")?;
                records = number;
            }
            Err(refusal) => {
                let line = Refused {
                    refusal,
                    at: number,
                };
                writeln!(text, "{line}")?;
            }
        }
    }
    Ok(records)
}

// A log that is described piece by piece gives the text of the whole.
pub fn pieces_make_the_whole()
    ensures { Piecewise }
{}
