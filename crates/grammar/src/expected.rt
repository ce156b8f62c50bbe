// Single tokens: each of these looks at the first of those that lie ahead, or takes it; with a fault it takes none.
ghost use Rattle.std.specs.Prelude.{◌≡◌, IfOk, OnErr};
ghost use Rattle.grammar.specs.Known.{variable_of, reading_of, kind_of, number_of, comparison_of};
ghost use Rattle.grammar.specs.Reading.{fixed, expect};
ghost use Rattle.grammar.specs.Shown.{Takes, TakesAs, bytes_and_place, First, Next, Onward, Skips, Looks, Known};

use crate::fault::GrammarFault;
use crate::known::{Wanted, comparison_of, kind_of, number_of, reading_of, variable_of};
use crate::test::Comparison;
use letters::{Spanned, Token, Tokens};

// The next token, which stays ahead.
pub fn first<'a>(tokens: &Tokens<'a>) -> Result<Spanned<'a>, GrammarFault>
    ensures { First result tokens.now }
{
    tokens.peek().ok_or(GrammarFault::WrongToken(tokens.end()))
}

// The next token, whatever it is.
pub fn next<'a>(tokens: &mut Tokens<'a>) -> Result<Spanned<'a>, GrammarFault>
    ensures value { Next tokens.old result tokens.new }
    ensures onward { IfOk result (λ _. Onward tokens.old tokens.new) }
    ensures back { OnErr result (tokens.new ≡ tokens.old) }
{
    let end = tokens.end();
    tokens.next().ok_or(GrammarFault::WrongToken(end))
}

// What is wanted: its place.
pub fn expect<W: Wanted>(tokens: &mut Tokens, wanted: W) -> Result<usize, GrammarFault>
    ensures { Takes (fixed (W.test wanted)) tokens.old result tokens.new }
{
    match look_for(tokens, wanted)? {
        (place, true) => Ok(place),
        (place, false) => Err(GrammarFault::WrongToken(place)),
    }
}

// Takes what is wanted, if it comes next.
pub fn skip<W: Wanted>(tokens: &mut Tokens, wanted: W) -> bool
    ensures { Skips (W.test wanted) tokens.old result tokens.new }
{
    let mut behind = *tokens;
    match behind.next() {
        Some(token) if wanted.matches(token.token) => {
            *tokens = behind;
            true
        }
        _ => false,
    }
}

// Takes what is wanted, if it comes next: the place of the next token, and whether it was taken. Beside `skip`, which has no place to give where there
// is no token.
pub fn look_for<W: Wanted>(tokens: &mut Tokens, wanted: W) -> Result<(usize, bool), GrammarFault>
    ensures { Looks (W.test wanted) tokens.old result tokens.new }
{
    let mut after = *tokens;
    let token = next(&mut after)?;
    let found = wanted.matches(token.token);
    if found {
        *tokens = after;
    }
    Ok((token.place, found))
}

// A token that `know` knows: what it is, and its place. Here and at `next` the clauses `onward` and `back` stand by themselves, since `Takes` wants a
// reader of the specs.
fn expect_known<'a, T: Drop, F: Fn(Token<'a>) -> Option<T> + Drop>(
    tokens: &mut Tokens<'a>,
    know: F,
) -> Result<(T, usize), GrammarFault>
    requires { F.IsAlwaysCallable know }
    ensures value { Known (λ x it. F.post know x it) tokens.old tokens.new result }
    ensures onward { IfOk result (λ _. Onward tokens.old tokens.new) }
    ensures back { OnErr result (tokens.new ≡ tokens.old) }
{
    let mut ahead = *tokens;
    let token = next(&mut ahead)?;
    match know(token.token) {
        Some(it) => {
            *tokens = ahead;
            Ok((it, token.place))
        }
        None => Err(GrammarFault::WrongToken(token.place)),
    }
}

// The next five only name what is known, so that callers read well.

// A variable: its letter and its place.
#[tactic(auto, using(crate::proofs::Steps::expect_at))]
pub fn expect_variable(tokens: &mut Tokens) -> Result<(u8, usize), GrammarFault>
    ensures { Takes (expect variable_of) tokens.old result tokens.new }
{
    expect_known(tokens, variable_of)
}

// A reading: its number and its place.
#[tactic(auto, using(crate::proofs::Steps::expect_at))]
pub(crate) fn expect_reading(tokens: &mut Tokens) -> Result<(u8, usize), GrammarFault>
    ensures { Takes (expect reading_of) tokens.old result tokens.new }
{
    expect_known(tokens, reading_of)
}

#[tactic(auto, using(crate::proofs::Steps::expect_at))]
pub(crate) fn expect_comparison(tokens: &mut Tokens) -> Result<(Comparison, usize), GrammarFault>
    ensures { Takes (expect comparison_of) tokens.old result tokens.new }
{
    expect_known(tokens, comparison_of)
}

// A number: its value and its place.
#[tactic(auto, using(crate::proofs::Steps::expect_at))]
pub fn expect_number(tokens: &mut Tokens) -> Result<(u32, usize), GrammarFault>
    ensures { Takes (expect number_of) tokens.old result tokens.new }
{
    expect_known(tokens, number_of)
}

// A kind word: its bytes and its place.
#[tactic(auto, using(crate::proofs::Steps::expect_kinds))]
pub fn expect_kind<'a>(tokens: &mut Tokens<'a>) -> Result<(&'a [u8], usize), GrammarFault>
    ensures { TakesAs bytes_and_place (expect kind_of) tokens.old result tokens.new }
{
    expect_known(tokens, kind_of)
}
