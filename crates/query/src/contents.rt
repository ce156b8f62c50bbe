// What is in a read query.
ghost use Rattle.std.specs.Prelude.{◌≡◌, length, Ok, codes, count_by};
ghost use Rattle.query.specs.Answer.{answer_of};
ghost use Rattle.query.specs.Contents.{parts_with, is_test, tests_in};
ghost use Rattle.query.specs.Meant.{meaning, OneValue};
ghost use Rattle.sense.specs.Meaning.{steps_of, ends_from};

use crate::query::Query;
use events::Kind;
use sense::{BLANK, Part, Step};

impl Query {
    // A new place for queries, which holds the shortest of them: EVENT SEQ(START a) WITHIN 1
    pub fn new() -> Query
        ensures { answer_of (codes "EVENT SEQ(START a) WITHIN 1") ≡ Ok (meaning result) }
    {
        let mut kinds = [false; 16];
        kinds[Kind::Start as usize] = true;
        let mut parts = [BLANK; 12];
        parts[0] = Part {
            negative: false,
            kinds,
            variable: b'a',
        };
        Query {
            parts,
            parts_len: 1,
            key: false,
            steps: [Step::And; 47],
            steps_len: 0,
            ends: [0; 24],
            clauses_len: 0,
            window: 1,
        }
    }

    // The parts, positive and negative, in order. This, `steps` and `ends` are a line each; one function for the three would be no plainer.
    pub fn parts(&self) -> &[Part]
        ensures { result.now ≡ (meaning self.now).parts }
    {
        &self.parts[..self.parts_len as usize]
    }

    // Whether all keys of a match have to be the same.
    pub fn asks_key(&self) -> bool
        ensures { result ≡ (meaning self.now).key }
    {
        self.key
    }

    // The conditions of all clauses, each in postfix order, one behind the other.
    #[tactic(auto, using(crate::proofs::Making::front))]
    pub fn steps(&self) -> &[Step]
        ensures { result.now ≡ steps_of (meaning self.now).clauses }
    {
        &self.steps[..self.steps_len as usize]
    }

    // How many steps there are up to the end of each clause.
    #[tactic(auto, using(crate::proofs::Making::front))]
    pub fn ends(&self) -> &[u8]
        ensures { result.now ≡ ends_from 0 (meaning self.now).clauses }
    {
        &self.ends[..self.clauses_len as usize]
    }

    // In tenths of a second.
    pub fn window(&self) -> u32
        ensures { result ≡ (meaning self.now).window }
    {
        self.window
    }

    // How many parts are negative, or how many are positive.
    pub fn count_parts(&self, negative: bool) -> usize
        ensures { result ≡ parts_with negative (meaning self.now).parts }
    {
        self.parts()
            .iter()
            .filter(|part| part.negative == negative)
            .count()
    }

    // How many clauses there are besides those that ask for the key.
    #[tactic(auto, using(crate::proofs::Making::as_many))]
    pub fn count_clauses(&self) -> usize
        ensures { result ≡ length (meaning self.now).clauses }
    {
        self.clauses_len as usize
    }

    pub fn count_tests(&self) -> usize
        ensures { result ≡ tests_in (meaning self.now).clauses }
    {
        tests_among(self.steps())
    }
}

fn tests_among(steps: &[Step]) -> usize
    ensures { result ≡ count_by is_test steps.now }
{
    steps
        .iter()
        .filter(|step| matches!(step, Step::Test(_)))
        .count()
}

// Queries that mean the same are the same in every field.
pub fn equal_readings_are_equal()
    ensures { OneValue }
{}
