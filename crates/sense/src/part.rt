// The parts of a query.

#[derive(Clone, Copy)]
pub struct Part {
    pub negative: bool,
    // whether events of a kind may stand here, by the kind's number
    pub kinds: [bool; 16],
    // the letter of its variable
    pub variable: u8,
}
