// The sense of a query: whether what its text says keeps the limits. A draft takes up what a text says, piece by piece, and knows the first
// fault so far. It has room for what a query may have; of what is beyond that it keeps only the fault.
#![tactic(auto)]

mod clauses;
mod draft;
mod fault;
mod law;
mod part;
mod parts;
mod resolved;
mod room;

pub use clauses::{Clauses, Negatives, Step};
pub use draft::Draft;
pub use fault::SenseFault;
pub use law::sense_holds;
pub use part::Part;
pub use parts::{BLANK, Binding, LastPart, Parts};
