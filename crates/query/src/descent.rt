// What reads a query, token by token.
ghost use Rattle.std.specs.Prelude.{◌≡◌, length, IfOk};
ghost use Rattle.grammar.specs.Shown.{Onward};
ghost use Rattle.letters.specs.Tokens.{tokens_of, ahead, end_of};
ghost use Rattle.query.specs.Descent.{Advances, Repeats};
ghost use Rattle.sense.specs.Drafted.{no_draft};

use grammar::{GrammarFault, Wanted, skip};
use letters::Tokens;
use sense::Draft;

// The tokens that lie ahead, and the draft of what was read.
#[derive(Drop)]
pub(crate) struct Reader<'a> {
    pub(crate) tokens: Tokens<'a>,
    pub(crate) draft: Draft,
}

impl<'a> Reader<'a> {
    pub(crate) fn new(text: &'a [u8]) -> Reader<'a>
        ensures draft { result.draft ≡ no_draft }
        ensures tokens { ahead result.tokens ≡ tokens_of (length text.now) text.now }
        ensures end { end_of result.tokens ≡ length text.now }
    {
        Reader {
            tokens: Tokens::new(text),
            draft: Draft::new(),
        }
    }

    // An item, and one more behind each separator. Two clauses and no `Reads`, since `item` may be any run.
    pub(crate) fn row<W: Wanted, F: Fn(&mut Reader<'a>) -> Result<(), GrammarFault> + Drop>(
        &mut self,
        separator: W,
        item: F,
    ) -> Result<(), GrammarFault>
        requires callable { F.IsAlwaysCallable item }
        requires onward { Advances (λ s r t. F.post item s r t) }
        ensures value { Repeats (λ s r t. F.post item s r t) (W.test separator) self.old result self.new }
        ensures onward { IfOk result (λ _. Onward self.old.tokens self.new.tokens) }
    {
        item(self)?;
        while skip(&mut self.tokens, separator) {
            item(self)?;
        }
        Ok(())
    }
}
