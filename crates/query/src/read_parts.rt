// The reader of a query's parts.
ghost use Rattle.query.specs.Descent.{Reads, kind_run, kinds_run, negative_run, part_run};

use crate::descent::Reader;
use grammar::{GrammarFault, expect, expect_kind, expect_variable, look_for, skip};
use letters::{Class, Symbol};

impl Reader<'_> {
    fn read_kind(&mut self) -> Result<(), GrammarFault>
        ensures { Reads kind_run self.old result self.new }
    {
        let (word, place) = expect_kind(&mut self.tokens)?;
        self.draft.add_kind(word, place);
        Ok(())
    }

    // A kind, or several behind ANY.
    fn read_kinds(&mut self) -> Result<(), GrammarFault>
        ensures { Reads kinds_run self.old result self.new }
    {
        if !skip(&mut self.tokens, Class::Any) {
            return self.read_kind();
        }
        expect(&mut self.tokens, Symbol::Open)?;
        self.row(Symbol::Comma, Reader::read_kind)?;
        expect(&mut self.tokens, Symbol::Close)?;
        Ok(())
    }

    // What follows the `!` of a negative part, whose place it is given.
    fn read_negative(&mut self, place: usize) -> Result<(), GrammarFault>
        ensures { Reads (negative_run place) self.old result self.new }
    {
        expect(&mut self.tokens, Symbol::Open)?;
        self.read_kinds()?;
        let variable = expect_variable(&mut self.tokens)?;
        expect(&mut self.tokens, Symbol::Close)?;
        self.draft.end_part(place, true, variable);
        Ok(())
    }

    pub(crate) fn read_part(&mut self) -> Result<(), GrammarFault>
        ensures { Reads part_run self.old result self.new }
    {
        let (place, negative) = look_for(&mut self.tokens, Symbol::Not)?;
        self.draft.begin_part();
        if negative {
            return self.read_negative(place);
        }
        self.read_kinds()?;
        let variable = expect_variable(&mut self.tokens)?;
        self.draft.end_part(place, false, variable);
        Ok(())
    }
}
