// The reader: letters, grammar and sense, each on the whole text before the next.
ghost use Rattle.std.specs.Prelude.{◌≡◌, length};
ghost use Rattle.grammar.specs.Reading.{query_at};
ghost use Rattle.grammar.specs.Syntax.{Syntax};
ghost use Rattle.query.specs.Answer.{answer_of, text_tokens, Answers};
ghost use Rattle.query.specs.Descent.{as_draft};
ghost use Rattle.query.specs.Judged.{DraftedFrom, Judges};
ghost use Rattle.query.specs.Law.{LanguageLaw};

use crate::descent::Reader;
use crate::fault::Fault;
use crate::query::Query;
use grammar::GrammarFault;
use letters::check_letters;
use sense::{Draft, SenseFault};

// How deep the parentheses of conditions may nest.
pub const DEEPEST: u8 = 8;

// What the text says, as a draft.
fn check_grammar(text: &[u8]) -> Result<Draft, GrammarFault>
    ensures { result ≡ as_draft (query_at 8 (length text.now) (text_tokens text.now)) }
{
    let mut reader = Reader::new(text);
    reader.read_query(DEEPEST)?;
    Ok(reader.draft)
}

// The query that the draft of a text holds, unless it has a fault.
fn check_sense(draft: &Draft) -> Result<Query, SenseFault>
    requires { (q : Syntax) × DraftedFrom draft.now q }
    ensures { (q : Syntax) → DraftedFrom draft.now q → Judges result q }
{
    if let Some(fault) = draft.fault {
        return Err(fault);
    }
    Ok(Query {
        parts: draft.parts.kept,
        parts_len: draft.parts.len,
        key: draft.clauses.key,
        steps: draft.clauses.steps,
        steps_len: draft.clauses.used,
        ends: draft.clauses.ends,
        clauses_len: draft.clauses.len,
        window: draft.window,
    })
}

// Reads a query text into the caller's place. A fault leaves the place as it was.
pub fn read(text: &[u8], place: &mut Query) -> Result<(), Fault>
    ensures value { Answers result place.old place.new (answer_of text.now) }
    ensures law { LanguageLaw text.now }
{
    check_letters(text)?;
    let draft = check_grammar(text)?;
    *place = check_sense(&draft)?;
    Ok(())
}
