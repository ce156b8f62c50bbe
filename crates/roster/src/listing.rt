// What is answered to a line of the list.
ghost use Rattle.keys.specs.Name.{name_answer};
ghost use Rattle.roster.specs.Listing.{Lists};
ghost use Rattle.roster.specs.Printed.{answer_line};
ghost use Rattle.std.specs.Prelude.{Some};
ghost use Rattle.std.specs.Str.{chars};

use crate::lines::Listed;
use crate::members::Members;
use keys::{Key, Name};
use refusals::Refused;
use std::alloc::AllocError;
use std::fmt;

// No Result<Listed, Refused>, which has no Display of its own: this one promises the line that is printed.
#[derive(Clone, Copy)]
pub enum Answer {
    Member(Listed),
    Refused(Refused),
}

impl fmt::Display for Answer {
    ghost output = { λ x. Some (answer_line x) };

    fn fmt<W: fmt::Write>(&self, f: &mut fmt::Formatter<W>) -> fmt::Result {
        match self {
            Answer::Member(listed) => write!(f, "{listed}"),
            Answer::Refused(refused) => write!(f, "{refused}"),
        }
    }
}

impl Members {
    // Answers a line, and enters its name.
    pub fn list(&mut self, text: &str, line: u64) -> Result<Answer, AllocError>
        ensures { Lists self.old (name_answer (chars text.now)) line self.new result }
    {
        match Name::from_text(text) {
            Ok(name) => {
                let first = self.enter(&name, line)?;
                let shelf = name.shelf();
                Ok(Answer::Member(Listed { line, first, shelf }))
            }
            Err(refusal) => Ok(Answer::Refused(Refused { refusal, at: line })),
        }
    }
}
