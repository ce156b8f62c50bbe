// What is wrong with a query's grammar, and where.
ghost use Rattle.std.specs.Prelude.{◌≡◌};
ghost use Rattle.grammar.specs.Faults.{number_of, place_of};

#[derive(Clone, Copy)]
pub enum GrammarFault {
    // no query goes on with the token at this place; at the end of the text, its length
    WrongToken(usize),
    // a parenthesis of a condition that is nested too deep
    TooDeep(usize),
}

impl GrammarFault {
    pub fn number(self) -> u8
        ensures { result ≡ number_of self }
    {
        match self {
            GrammarFault::WrongToken(_) => 4,
            GrammarFault::TooDeep(_) => 5,
        }
    }

    pub fn place(self) -> usize
        ensures { result ≡ place_of self }
    {
        match self {
            GrammarFault::WrongToken(place) | GrammarFault::TooDeep(place) => place,
        }
    }
}
