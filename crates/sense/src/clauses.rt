// The clauses of a draft.
ghost use Rattle.std.specs.Prelude.{◌≡◌};
ghost use Rattle.sense.specs.Drafted.{no_clauses, key_asked, clause_begun, negatives_with, negative_used, step_kept, test_counted, end_kept};

use crate::room::keep;
use grammar::Test;

// Conditions are kept in postfix order: a test, or what joins the two conditions before it. Tests name events by the number of their part.
#[derive(Clone, Copy)]
pub enum Step {
    Test(Test<u8>),
    And,
    Or,
}

// The negative variables that a clause has used so far. Of several, the first is known.
#[derive(Clone, Copy, PartialEq, Eq, Debug)]
pub enum Negatives {
    None,
    One(u8),
    Several(u8),
}

impl Negatives {
    pub(crate) fn with(self, letter: u8) -> Negatives
        ensures { result ≡ negatives_with self letter }
    {
        match self {
            Negatives::None => Negatives::One(letter),
            Negatives::One(first) if first == letter => self,
            Negatives::One(first) | Negatives::Several(first) => Negatives::Several(first),
        }
    }
}

#[derive(Clone, Copy)]
pub struct Clauses {
    // whether all keys have to be the same
    pub key: bool,
    // rooms with lengths, since libraries use no heap and equal readings are equal in every field (room.rt)
    // the first 47 steps
    pub steps: [Step; 47],
    pub used: u8,
    // how many steps there are up to the end of each of the first 24 clauses
    pub ends: [u8; 24],
    pub len: u8,
    // how many tests there were; there is no counting past 25
    pub tests: u8,
    // of the clause that is being read
    pub negatives: Negatives,
}

impl Clauses {
    pub(crate) fn none() -> Clauses
        ensures { result ≡ no_clauses }
    {
        Clauses {
            key: false,
            steps: [Step::And; 47],
            used: 0,
            ends: [0; 24],
            len: 0,
            tests: 0,
            negatives: Negatives::None,
        }
    }

    pub(crate) fn ask_key(&mut self)
        ensures { self.new ≡ key_asked self.old }
    {
        self.key = true;
    }

    pub(crate) fn begin(&mut self)
        ensures { self.new ≡ clause_begun self.old }
    {
        self.negatives = Negatives::None;
    }

    // The clause uses this negative variable.
    pub(crate) fn use_negative(&mut self, letter: u8)
        ensures { self.new ≡ negative_used self.old letter }
    {
        self.negatives = self.negatives.with(letter);
    }

    pub(crate) fn keep_step(&mut self, step: Step)
        ensures { self.new ≡ step_kept self.old step }
    {
        keep(&mut self.steps, &mut self.used, step);
    }

    pub(crate) fn count_test(&mut self)
        ensures { self.new ≡ test_counted self.old }
    {
        if self.tests < 25 {
            self.tests += 1;
        }
    }

    pub(crate) fn keep_end(&mut self)
        ensures { self.new ≡ end_kept self.old }
    {
        keep(&mut self.ends, &mut self.len, self.used);
    }
}
