// What a query holds, in forms that can be compared.
use crate::outcome::said;
use grammar::{Comparison, Item, Side, Test};
use query::{Query, read};
use sense::{Part, Step};

#[derive(Clone, Copy, PartialEq, Eq, Debug)]
pub enum PlainItem {
    // a part and a reading, by their numbers
    Of(u8, u8),
    Number(i64),
}

// An item, and perhaps a sign and another.
pub type PlainSide = (PlainItem, Option<(char, PlainItem)>);

#[derive(Clone, Copy, PartialEq, Eq, Debug)]
pub enum PlainStep {
    Test(PlainSide, &'static str, PlainSide),
    And,
    Or,
}

fn plain_item(item: Item<u8>) -> PlainItem {
    match item {
        Item::Reading(part, reading) => PlainItem::Of(part, reading),
        Item::Number(value) => PlainItem::Number(value),
    }
}

fn plain_side(side: Side<u8>) -> PlainSide {
    match side {
        Side::Alone(item) => (plain_item(item), None),
        Side::Sum(one, other) => (plain_item(one), Some(('+', plain_item(other)))),
        Side::Difference(one, other) => (plain_item(one), Some(('-', plain_item(other)))),
    }
}

fn sign(comparison: Comparison) -> &'static str {
    match comparison {
        Comparison::Equal => "=",
        Comparison::NotEqual => "!=",
        Comparison::Less => "<",
        Comparison::AtMost => "<=",
        Comparison::Greater => ">",
        Comparison::AtLeast => ">=",
    }
}

fn plain_test(test: Test<u8>) -> PlainStep {
    PlainStep::Test(
        plain_side(test.left),
        sign(test.comparison),
        plain_side(test.right),
    )
}

pub fn plain_step(step: Step) -> PlainStep {
    match step {
        Step::Test(test) => plain_test(test),
        Step::And => PlainStep::And,
        Step::Or => PlainStep::Or,
    }
}

fn same_part(one: Part, other: Part) -> bool {
    one.negative == other.negative && one.kinds == other.kinds && one.variable == other.variable
}

fn same_parts(one: &[Part], other: &[Part]) -> bool {
    one.len() == other.len() && one.iter().zip(other).all(|(a, b)| same_part(*a, *b))
}

fn same_steps(one: &[Step], other: &[Step]) -> bool {
    one.len() == other.len()
        && one
            .iter()
            .zip(other)
            .all(|(a, b)| plain_step(*a) == plain_step(*b))
}

// Whether two queries are the same in all that can be asked of them.
pub fn alike(one: &Query, other: &Query) -> bool {
    said(one) == said(other)
        && same_parts(one.parts(), other.parts())
        && same_steps(one.steps(), other.steps())
        && one.ends() == other.ends()
}

// Whether both texts are queries, and alike.
pub fn read_alike(one: &[u8], other: &[u8]) -> Option<bool> {
    let mut first = Query::new();
    let mut second = Query::new();
    read(one, &mut first).ok()?;
    read(other, &mut second).ok()?;
    Some(alike(&first, &second))
}
