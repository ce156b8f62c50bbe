// The reader of tests.
ghost use Rattle.std.specs.Prelude.{◌≡◌, IfOk};
ghost use Rattle.grammar.specs.declared.test.Side.TheVariants.{Sum, Difference};
ghost use Rattle.grammar.specs.Reading.{giving, item_at, side_from, side_at, test_at};
ghost use Rattle.grammar.specs.Shown.{shown, TakesAs, GoesOn, GoesOnAs, as_written, NotBack};
ghost use Rattle.letters.specs.Tokens.{ahead, end_of};

use crate::expected::{expect, expect_comparison, expect_number, expect_reading, first, next};
use crate::fault::GrammarFault;
use crate::known::{Wanted, number_of, variable_of};
use crate::test::{Item, Name, Side, Test};
use letters::{Symbol, Token, Tokens};

fn read_item(tokens: &mut Tokens) -> Result<Item<Name>, GrammarFault>
    ensures { GoesOn item_at tokens.old result tokens.new }
{
    let token = next(tokens)?;
    if Symbol::Minus.matches(token.token) {
        let (value, _) = expect_number(tokens)?;
        return Ok(Item::Number(-i64::from(value)));
    }
    if let Some(letter) = variable_of(token.token) {
        expect(tokens, Symbol::Dot)?;
        let (reading, _) = expect_reading(tokens)?;
        let name = Name {
            letter,
            place: token.place,
        };
        return Ok(Item::Reading(name, reading));
    }
    match number_of(token.token) {
        Some(value) => Ok(Item::Number(i64::from(value))),
        None => Err(GrammarFault::WrongToken(token.place)),
    }
}

fn read_sum(left: Item<Name>, tokens: &mut Tokens) -> Result<Side<Name>, GrammarFault>
    ensures { GoesOn (λ end ts. giving (Sum left) (item_at end ts)) tokens.old result tokens.new }
{
    let right = read_item(tokens)?;
    Ok(Side::Sum(left, right))
}

// Beside `read_sum`, since one function over both would take a closure and a longer contract.
fn read_difference(left: Item<Name>, tokens: &mut Tokens) -> Result<Side<Name>, GrammarFault>
    ensures { GoesOn (λ end ts. giving (Difference left) (item_at end ts)) tokens.old result tokens.new }
{
    let right = read_item(tokens)?;
    Ok(Side::Difference(left, right))
}

// What may follow the first item of a side: an item to add or to take away. Perhaps it takes no token, and so this is no `GoesOn`.
fn read_side_from(left: Item<Name>, tokens: &mut Tokens) -> Result<Side<Name>, GrammarFault>
    ensures value { shown result tokens.new ≡ side_from (end_of tokens.old) left (ahead tokens.old) }
    ensures onward { IfOk result (λ _. NotBack tokens.old tokens.new) }
{
    let mut after = *tokens;
    match after.next().map(|sign| sign.token) {
        Some(Token::Mark(Symbol::Plus)) => {
            *tokens = after;
            read_sum(left, tokens)
        }
        Some(Token::Mark(Symbol::Minus)) => {
            *tokens = after;
            read_difference(left, tokens)
        }
        _ => Ok(Side::Alone(left)),
    }
}

fn read_side(tokens: &mut Tokens) -> Result<Side<Name>, GrammarFault>
    ensures { GoesOn side_at tokens.old result tokens.new }
{
    let left = read_item(tokens)?;
    read_side_from(left, tokens)
}

// As `read_test`, but where it finds a fault the tokens may stand anywhere.
fn read_whole(tokens: &mut Tokens) -> Result<(Test<Name>, usize), GrammarFault>
    ensures { GoesOnAs as_written test_at tokens.old result tokens.new }
{
    let place = first(tokens)?.place;
    let left = read_side(tokens)?;
    let (comparison, _) = expect_comparison(tokens)?;
    let right = read_side(tokens)?;
    let test = Test {
        left,
        comparison,
        right,
    };
    Ok((test, place))
}

// A test, and the place of its first token. Where it finds a fault it takes no token.
pub fn read_test(tokens: &mut Tokens) -> Result<(Test<Name>, usize), GrammarFault>
    ensures { TakesAs as_written test_at tokens.old result tokens.new }
{
    let mut after = *tokens;
    let test = read_whole(&mut after)?;
    *tokens = after;
    Ok(test)
}
