// The grammar of queries: what a row of tokens reads as. Here are the readers of single tokens and of tests, and the law of the whole grammar.
#![tactic(auto)]

mod expected;
mod fault;
mod known;
mod law;
mod test;
mod tested;

pub use expected::{
    expect, expect_kind, expect_number, expect_variable, first, look_for, next, skip,
};
pub use fault::GrammarFault;
pub use known::Wanted;
pub use law::grammar_holds;
pub use test::{Comparison, Item, Name, Side, Test};
pub use tested::read_test;
