// One position as a table holds it. Every field is a plain number, and any of them may be spoilt.
#[derive(Clone, Copy, Debug, PartialEq, Eq)]
pub struct Record {
    pub side: u8,
    pub label: u8,
    // The place of its first move in the move slice: places, and no slice of moves, since a record lies in
    // a slice that a caller lends.
    pub first: u16,
    // How many moves it has.
    pub count: u16,
}

impl Record {
    // What stands for a record that is not there: all numbers are 0.
    pub const BLANK: Record = Record {
        side: 0,
        label: 0,
        first: 0,
        count: 0,
    };
}
