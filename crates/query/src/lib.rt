// Queries: the reader of their texts.
#![tactic(auto)]

mod contents;
mod descent;
mod fault;
mod query;
mod read_condition;
mod read_parts;
mod read_query;
mod reader;

pub use contents::equal_readings_are_equal;
pub use fault::{Fault, Layer};
pub use query::Query;
pub use reader::{DEEPEST, read};
