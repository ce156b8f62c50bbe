// Read queries.
ghost use Rattle.query.specs.Held.{decoded, HoldsParts, HoldsSteps, HoldsEnds, IsRead};

use sense::{Part, Step};

// What a query text says. Only the reader makes one: whatever is in it stands for some text that is a query. Arrays with lengths, since a query
// is fixed memory without a heap, and queries that mean the same are the same in every field.
#[derive(Clone, Copy)]
pub struct Query {
    pub(crate) parts: [Part; 12],
    pub(crate) parts_len: u8,
    pub(crate) key: bool,
    pub(crate) steps: [Step; 47],
    pub(crate) steps_len: u8,
    // how many steps there are up to the end of each clause
    pub(crate) ends: [u8; 24],
    pub(crate) clauses_len: u8,
    pub(crate) window: u32,
    ghost sequence: { HoldsParts parts parts_len (decoded parts parts_len key steps steps_len window) },
    ghost conditions: { HoldsSteps steps steps_len (decoded parts parts_len key steps steps_len window) },
    ghost clauses: { HoldsEnds ends clauses_len (decoded parts parts_len key steps steps_len window) },
    ghost read: { ∥ IsRead (decoded parts parts_len key steps steps_len window) ∥₁ },
}
