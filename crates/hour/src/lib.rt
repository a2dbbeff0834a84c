// An hour's rows and transactions. What they mean, and what an hour comes to, is in specs/; crates `hour_..` work it out.
#![tactic(auto)]

ghost use Rattle.std.specs.Prelude.{◌≡◌, ◌≤◌};
ghost use Rattle.hour.specs.Numbers.{as_row, as_transaction};

use refusals::Refusal;
use units::Kw;

// "a market (day-ahead 0, real time 1)"; as with kinds, numbers and no enum, since a row that is to be refused has any number there (`row_refusal` of specs/Order)
pub const DAY_AHEAD: u8 = 0;

pub const REAL_TIME: u8 = 1;

// "Kinds: 0 load, 1 generation, 2 export, 3 import, 4 decrement bid, 5 increment offer"
pub const LOAD: u8 = 0;

pub const GENERATION: u8 = 1;

pub const EXPORT: u8 = 2;

pub const IMPORT: u8 = 3;

pub const DECREMENT_BID: u8 = 4;

pub const INCREMENT_OFFER: u8 = 5;

// What a participant withdraws or injects at a location.
#[derive(Clone, Copy)]
pub struct Row {
    pub market: u8,
    pub kind: u8,
    pub interval: u8,
    pub participant: u8,
    pub location: u16,
    pub kw: Kw,
}

// The editions of an hour (document 02, ticket 2): a transaction is its path alone, or also a sale, which names its seller.
#[derive(Clone, Copy)]
pub enum Edition {
    PathOnly,
    WithSeller,
}

// What a participant carries from a source to a sink; with a seller, what it buys. Where there is none the seller is 0, and says nothing.
#[derive(Clone, Copy)]
pub struct Transaction {
    pub market: u8,
    pub interval: u8,
    pub participant: u8,
    pub seller: u8,
    pub source: u16,
    pub sink: u16,
    pub kw: Kw,
}

// The numbers of a row as somebody hands them over, each as wide as a number of a list: whether they make a row is tested.
#[derive(Clone, Copy)]
pub struct RowNumbers {
    pub market: u64,
    pub kind: u64,
    pub interval: u64,
    pub participant: u64,
    pub location: u64,
    pub kw: u64,
}

impl From<Row> for RowNumbers {
    ghost from_gives = { λ row numbers. as_row numbers ≡ row };

    fn from(row: Row) -> RowNumbers {
        RowNumbers {
            market: u64::from(row.market),
            kind: u64::from(row.kind),
            interval: u64::from(row.interval),
            participant: u64::from(row.participant),
            location: u64::from(row.location),
            kw: u64::from(row.kw.0),
        }
    }
}

// Those of a transaction; the seller is 0 where there is none.
#[derive(Clone, Copy)]
pub struct TransactionNumbers {
    pub market: u64,
    pub interval: u64,
    pub participant: u64,
    pub seller: u64,
    pub source: u64,
    pub sink: u64,
    pub kw: u64,
}

impl From<Transaction> for TransactionNumbers {
    ghost from_gives = { λ transaction numbers. as_transaction numbers ≡ transaction };

    fn from(transaction: Transaction) -> TransactionNumbers {
        TransactionNumbers {
            market: u64::from(transaction.market),
            interval: u64::from(transaction.interval),
            participant: u64::from(transaction.participant),
            seller: u64::from(transaction.seller),
            source: u64::from(transaction.source),
            sink: u64::from(transaction.sink),
            kw: u64::from(transaction.kw.0),
        }
    }
}

// Why something is refused: which number it is, what stands there, and from where to where it may go (specs/Cause).
#[derive(Clone, Copy)]
pub struct Cause {
    pub refusal: Refusal,
    pub place: Place,
    pub found: i64,
    pub least: i64,
    pub most: i64,
}

// Which number of an hour, of its file or of the lists that it is handed over in.
#[derive(Clone, Copy)]
pub enum Place {
    File,
    Header(HeaderField),
    Price(u32),
    Row(u32, RowField),
    Transaction(u32, TransactionField),
    Surplus,
    Share(u32),
    List(ListField),
}

#[derive(Clone, Copy)]
pub enum HeaderField {
    Participants,
    Locations,
    Rows,
    Transactions,
    Edition,
}

#[derive(Clone, Copy)]
pub enum RowField {
    Market,
    Kind,
    Interval,
    Participant,
    Location,
    Kw,
    Spare,
}

// The fields of edition 0 in their order, then those that edition 1 adds.
#[derive(Clone, Copy)]
pub enum TransactionField {
    Market,
    Interval,
    Participant,
    Source,
    Sink,
    Kw,
    Seller,
    Spare,
}

#[derive(Clone, Copy)]
pub enum ListField {
    Prices,
    Rows,
    Transactions,
}

// How many participants and locations an hour has.
#[derive(Clone, Copy)]
pub struct Sizes {
    pub participants: u64,
    pub locations: u64,
    pub ghost in_range: { (1 ≤ participants) × (participants ≤ 64) × (1 ≤ locations) × (locations ≤ 64) },
}
