// The letters of a query text: which stretches of it are tokens, and where it has none.
#![tactic(auto)]

mod fault;
mod number;
mod symbol;
mod token;
mod word;

pub use fault::{LONGEST, LetterFault, check_letters};
pub use number::{LARGEST, number_value};
pub use symbol::Symbol;
pub use token::{Spanned, Token, Tokens};
pub use word::{Class, class_of};
