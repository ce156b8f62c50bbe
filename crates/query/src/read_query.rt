// The reader of whole queries, behind those of parts and conditions.
ghost use Rattle.std.specs.Prelude.{◌≡◌, IfOk};
ghost use Rattle.letters.specs.Tokens.{ahead, end_of};
ghost use Rattle.query.specs.Descent.{left, Reads, whole, clause_run, where_run, sequence_run, window_run, query_run};

use crate::descent::Reader;
use grammar::{GrammarFault, expect, expect_number, look_for, skip};
use letters::{Class, Symbol};

impl Reader<'_> {
    fn read_clause(&mut self, depth: u8) -> Result<(), GrammarFault>
        ensures { Reads (clause_run depth) self.old result self.new }
    {
        let (place, asks_key) = look_for(&mut self.tokens, Symbol::OpenSquare)?;
        if asks_key {
            expect(&mut self.tokens, Class::Key)?;
            expect(&mut self.tokens, Symbol::CloseSquare)?;
            self.draft.ask_key();
            return Ok(());
        }
        self.draft.begin_clause();
        self.read_unit(depth)?;
        self.draft.end_clause(place);
        Ok(())
    }

    // WHERE and clauses, or nothing. Perhaps it takes no token, and so this is no `Reads`.
    fn read_where(&mut self, depth: u8) -> Result<(), GrammarFault>
        ensures value { left result self.new ≡ where_run depth (end_of self.old.tokens) self.old.draft (ahead self.old.tokens) }
        ensures end { IfOk result (λ _. end_of self.new.tokens ≡ end_of self.old.tokens) }
    {
        if skip(&mut self.tokens, Class::Where) {
            return self.row(Class::And, |reader| reader.read_clause(depth));
        }
        Ok(())
    }

    // EVENT SEQ and the parts in their parentheses.
    fn read_sequence(&mut self) -> Result<(), GrammarFault>
        ensures { Reads sequence_run self.old result self.new }
    {
        expect(&mut self.tokens, Class::Event)?;
        expect(&mut self.tokens, Class::Seq)?;
        expect(&mut self.tokens, Symbol::Open)?;
        self.row(Symbol::Comma, Reader::read_part)?;
        expect(&mut self.tokens, Symbol::Close)?;
        self.draft.end_parts();
        Ok(())
    }

    // WITHIN and a number.
    fn read_window(&mut self) -> Result<(), GrammarFault>
        ensures { Reads window_run self.old result self.new }
    {
        expect(&mut self.tokens, Class::Within)?;
        let window = expect_number(&mut self.tokens)?;
        self.draft.set_window(window);
        Ok(())
    }

    // A whole query, whose conditions may nest `depth` deep.
    pub(crate) fn read_query(&mut self, depth: u8) -> Result<(), GrammarFault>
        ensures { whole result self.new.draft ≡ query_run depth (end_of self.old.tokens) self.old.draft (ahead self.old.tokens) }
    {
        self.read_sequence()?;
        self.read_where(depth)?;
        self.read_window()?;
        match self.tokens.peek() {
            Some(token) => Err(GrammarFault::WrongToken(token.place)),
            None => Ok(()),
        }
    }
}
