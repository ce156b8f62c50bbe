// The reader of conditions: a method for each of the three levels at which tests are joined. Inside a parenthesis they start again, with one
// less to nest. By a rule of the project these are not generic, and so the rows of the last two are written out.
ghost use Rattle.query.specs.Descent.{Reads, unit_run, all_run, either_run};

use crate::descent::Reader;
use grammar::{GrammarFault, expect, look_for, read_test, skip};
use letters::{Class, Symbol};
use sense::Step;

impl Reader<'_> {
    // A test, or a condition in parentheses.
    #[cycle(condition)]
    pub(crate) fn read_unit(&mut self, depth: u8) -> Result<(), GrammarFault>
        ensures { Reads (unit_run depth) self.old result self.new }
    {
        let (place, opens) = look_for(&mut self.tokens, Symbol::Open)?;
        if !opens {
            let (test, place) = read_test(&mut self.tokens)?;
            self.draft.test(test, place);
            return Ok(());
        }
        if depth == 0 {
            return Err(GrammarFault::TooDeep(place));
        }
        self.read_either(depth - 1)?;
        expect(&mut self.tokens, Symbol::Close)?;
        Ok(())
    }

    // Units joined by AND.
    #[cycle(condition)]
    fn read_all(&mut self, depth: u8) -> Result<(), GrammarFault>
        ensures { Reads (all_run depth) self.old result self.new }
    {
        self.read_unit(depth)?;
        while skip(&mut self.tokens, Class::And) {
            self.read_unit(depth)?;
            self.draft.join(Step::And);
        }
        Ok(())
    }

    // The like of these joined by OR: a whole condition.
    #[cycle(condition)]
    fn read_either(&mut self, depth: u8) -> Result<(), GrammarFault>
        ensures { Reads (either_run depth) self.old result self.new }
    {
        self.read_all(depth)?;
        while skip(&mut self.tokens, Class::Or) {
            self.read_all(depth)?;
            self.draft.join(Step::Or);
        }
        Ok(())
    }
}
