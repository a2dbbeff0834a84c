// What is read from an exercise file (document 01, "The exercise file"). What its bytes mean is in specs/; crates `exercise_..` read them.
#![tactic(auto)]

use hour::Edition;

// The counts of the header, and the number of its edition as it stands there: it may name no edition.
#[derive(Clone, Copy)]
pub struct Header {
    pub participants: usize,
    pub locations: usize,
    pub rows: usize,
    pub transactions: usize,
    pub edition: usize,
}

// The counts of an hour that is handed over in numbers, and the number of its edition: any numbers, until they are tested. Those that pass are a `Header`.
#[derive(Clone, Copy)]
pub struct Counts {
    pub participants: i64,
    pub locations: i64,
    pub rows: i64,
    pub transactions: i64,
    pub edition: i64,
}

// Its lists, eight bytes a number.
#[derive(Clone, Copy)]
pub struct HourLists<'a> {
    pub prices: &'a [u8],
    pub rows: &'a [u8],
    pub transactions: &'a [u8],
}

// What stands in a stretch behind the prices, or in a list of an hour: rows, or transactions of an edition.
#[derive(Clone, Copy)]
pub enum Item {
    Row,
    Transaction(Edition),
}

// Where prices, rows and transactions start, and where the file ends.
#[derive(Clone, Copy)]
pub struct Places {
    pub prices: usize,
    pub rows: usize,
    pub transactions: usize,
    pub end: usize,
}
