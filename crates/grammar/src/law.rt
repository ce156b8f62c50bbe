// The law of the grammar.
ghost use Rattle.grammar.specs.Law.{GrammarHolds};

// The readers find the readings of the grammar, of which a row of tokens has at most one, and put faults where no reading goes on.
pub fn grammar_holds()
    ensures { GrammarHolds }
{}
