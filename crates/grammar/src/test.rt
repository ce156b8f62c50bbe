// Tests: two sides and a comparison. `V` is how a test names an event: by its variable as it is written, or by the variable's part.

// A variable as it is written.
#[derive(Clone, Copy)]
pub struct Name {
    pub letter: u8,
    pub place: usize,
}

#[derive(Clone, Copy)]
pub enum Item<V> {
    // a reading of an event, by the reading's number
    Reading(V, u8),
    Number(i64),
}

#[derive(Clone, Copy)]
pub enum Side<V> {
    Alone(Item<V>),
    Sum(Item<V>, Item<V>),
    Difference(Item<V>, Item<V>),
}

#[derive(Clone, Copy)]
pub enum Comparison {
    Equal,
    NotEqual,
    Less,
    AtMost,
    Greater,
    AtLeast,
}

#[derive(Clone, Copy)]
pub struct Test<V> {
    pub left: Side<V>,
    pub comparison: Comparison,
    pub right: Side<V>,
}
