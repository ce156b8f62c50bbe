// What comes of reading a text.
use query::{Fault, Query, read};

// A fault: its number, the word of its layer, and its place.
pub type Refused = (u8, &'static str, usize);

// What a query has: positive parts, negative parts, clauses, tests, the window, and whether it asks for the key.
pub type Said = (usize, usize, usize, usize, u32, bool);

fn refused(fault: Fault) -> Refused {
    (fault.number(), fault.layer().word(), fault.place())
}

pub fn said(query: &Query) -> Said {
    (
        query.count_parts(false),
        query.count_parts(true),
        query.count_clauses(),
        query.count_tests(),
        query.window(),
        query.asks_key(),
    )
}

pub fn outcome(text: &[u8]) -> Result<Said, Refused> {
    let mut query = Query::new();
    read(text, &mut query).map_err(refused)?;
    Ok(said(&query))
}
