// What is answered to a query text.
ghost use Rattle.checkquery.specs.Report.{report_of};
ghost use Rattle.query.specs.Answer.{answer_of};
ghost use Rattle.std.specs.Prelude.{◌≡◌, ◌++◌, OnOk};

use crate::lines::{FaultLine, Summary};
use crate::quote::push_quote;
use query::{Query, read};
use std::io;
use std::io::Write;

// Appends the answer for a query text: what is in it, or its fault and where that stands.
pub fn report(out: &mut Vec<u8>, text: &[u8]) -> io::Result<()>
    ensures { OnOk result (out.new.items ≡ out.old.items ++ report_of text.now (answer_of text.now)) }
{
    let mut query = Query::new();
    match read(text, &mut query) {
        Ok(()) => out.writeln(Summary(&query)),
        Err(fault) => {
            out.writeln(FaultLine(fault))?;
            push_quote(out, text, fault.place(), fault.word())
        }
    }
}

#[cfg(test)]
mod tests {
    use super::*;
    use std::test::Fail;

    // Texts, and what is told of each.
    const TEXTS: [(&str, &str); 6] = [
        (
            "EVENT SEQ(STRAPON a, !(SPLIT b), STOP c)\n\tWHERE [key] AND c.r0 > 5 WITHIN 600",
            "ok 2 1 1 1 600 key\n",
        ),
        ("", "fault 4 grammar 0\n\n^ wrong token\n"),
        (
            "\n\tWITHIN 5\n",
            "fault 4 grammar 2\n\tWITHIN 5\n\t^ wrong token\n",
        ),
        (
            "EVENT SEQ(START a) WITHIN\n",
            "fault 4 grammar 26\n\n^ wrong token\n",
        ),
        (
            "EVENT SEQ(START a)\nWITHIN 2147483648\n\n",
            "fault 2 letters 26\nWITHIN 2147483648\n       ^ long number\n",
        ),
        (
            "EVENT É",
            "fault 1 letters 6\nEVENT É\n      ^ stray byte\n",
        ),
    ];

    #[test]
    fn texts_are_answered(rt: HostRuntime) -> Result<(), Fail> {
        for (text, told) in TEXTS {
            let mut out = Vec::new(rt.alloc());
            report(&mut out, text.as_bytes())?;
            assert!(rt; out.as_slice() == told.as_bytes());
        }
        Ok(())
    }
}
