// What is refused of a row, and of a transaction (document 01, "Order for an hour"). Their numbers are wide here, so that those of a file and those that somebody hands
// over are tested alike. Participants and locations are any numbers here, so they aren't `hour::Sizes`, which are in range.
#![tactic(auto)]

ghost use Rattle.std.specs.Prelude.{◌≡◌, eqb};
ghost use Rattle.ints.specs.Refusal.{unless};
ghost use Rattle.refusals.specs.Number.{answer};
ghost use Rattle.hour.specs.Numbers.{as_row, as_transaction};
ghost use Rattle.hour.specs.Order.{is_price, has_kind, has_interval, row_refusal, packed_row_refusal, transaction_refusal, packed_transaction_refusal};

use hour::{INCREMENT_OFFER, REAL_TIME, Row, RowNumbers, Transaction, TransactionNumbers};
use refusals::Refusal;

// What is refused of a price.
pub fn price_refusal(price: i64) -> Result<(), Refusal>
    ensures { answer result ≡ unless (is_price price) 2 0 }
{
    if !ints::is_between(price, -5_000_000, 5_000_000) {
        return Err(Refusal::Range);
    }
    Ok(())
}

// Whether the market has the kind, and the interval. A market read from a file has one bit and a kind three, so that the first tests cost nothing there; and what a market
// allows is worked out of it, so that there is no branch.
fn has_kind(market: u64, kind: u64) -> bool
    ensures { result ≡ has_kind market kind }
{
    if market > u64::from(REAL_TIME) {
        return false;
    }
    if kind > 7 {
        return false;
    }
    kind + 2 * market <= u64::from(INCREMENT_OFFER)
}

fn has_interval(market: u64, interval: u64) -> bool
    ensures { result ≡ has_interval market interval }
{
    if market > u64::from(REAL_TIME) {
        return false;
    }
    interval <= 11 * market
}

// Whether nothing is refused of a row of these numbers. The tests are joined without a branch, since a market or a kind is as likely as another, and a branch that can't
// be foretold costs more than all of them.
#[tactic(auto, unfolding(hour::specs::Order::row_refusal))]
fn row_numbers_pass(participants: u64, locations: u64, numbers: RowNumbers) -> bool
    ensures { result ≡ eqb (row_refusal participants locations (as_row numbers)) 0 }
{
    ints::both(
        has_kind(numbers.market, numbers.kind),
        ints::both(
            has_interval(numbers.market, numbers.interval),
            ints::both(
                numbers.participant < participants,
                ints::both(numbers.location < locations, numbers.kw <= 20_000_000),
            ),
        ),
    )
}

// What is refused of a row of these numbers.
#[tactic(auto, unfolding(hour::specs::Order::row_refusal))]
pub fn row_numbers_refusal(
    participants: u64,
    locations: u64,
    numbers: RowNumbers,
) -> Result<(), Refusal>
    ensures { answer result ≡ row_refusal participants locations (as_row numbers) }
{
    if row_numbers_pass(participants, locations, numbers) {
        return Ok(());
    }
    if !has_kind(numbers.market, numbers.kind) {
        return Err(Refusal::Kind);
    }
    if !has_interval(numbers.market, numbers.interval) {
        return Err(Refusal::Kind);
    }
    if numbers.participant >= participants {
        return Err(Refusal::Identity);
    }
    if numbers.location >= locations {
        return Err(Refusal::Identity);
    }
    Err(Refusal::Range)
}

// "All spare bits are 0".
fn spare_refusal(spare: u64) -> Result<(), Refusal>
    ensures { answer result ≡ unless (eqb spare 0) 9 0 }
{
    if spare != 0 {
        return Err(Refusal::File);
    }
    Ok(())
}

// What is refused of a row with its spare bits.
#[tactic(auto, unfolding(hour::specs::Order::packed_row_refusal))]
pub fn packed_row_refusal(
    participants: usize,
    locations: usize,
    row: Row,
    spare: u64,
) -> Result<(), Refusal>
    ensures { answer result ≡ packed_row_refusal participants locations row spare }
{
    row_numbers_refusal(participants as u64, locations as u64, RowNumbers::from(row))?;
    spare_refusal(spare)
}

// Whether nothing is refused of a transaction of these numbers.
#[tactic(auto, unfolding(hour::specs::Order::transaction_refusal))]
fn transaction_numbers_pass(participants: u64, locations: u64, numbers: TransactionNumbers) -> bool
    ensures { result ≡ eqb (transaction_refusal participants locations (as_transaction numbers)) 0 }
{
    ints::both(
        has_interval(numbers.market, numbers.interval),
        ints::both(
            participants > numbers.participant,
            ints::both(
                participants > numbers.seller,
                ints::both(
                    locations > numbers.source,
                    ints::both(locations > numbers.sink, 20_000_000 >= numbers.kw),
                ),
            ),
        ),
    )
}

// What is refused of a transaction of these numbers.
#[tactic(auto, unfolding(hour::specs::Order::transaction_refusal))]
pub fn transaction_numbers_refusal(
    participants: u64,
    locations: u64,
    numbers: TransactionNumbers,
) -> Result<(), Refusal>
    ensures { answer result ≡ transaction_refusal participants locations (as_transaction numbers) }
{
    if transaction_numbers_pass(participants, locations, numbers) {
        return Ok(());
    }
    if !has_interval(numbers.market, numbers.interval) {
        return Err(Refusal::Kind);
    }
    if participants <= numbers.participant {
        return Err(Refusal::Identity);
    }
    if participants <= numbers.seller {
        return Err(Refusal::Identity);
    }
    if numbers.source >= locations {
        return Err(Refusal::Identity);
    }
    if numbers.sink >= locations {
        return Err(Refusal::Identity);
    }
    Err(Refusal::Range)
}

// What is refused of a transaction with the spare bits beside it.
#[tactic(auto, unfolding(hour::specs::Order::packed_transaction_refusal))]
pub fn packed_transaction_refusal(
    participants: usize,
    locations: usize,
    transaction: Transaction,
    beside: u64,
) -> Result<(), Refusal>
    ensures { answer result ≡ packed_transaction_refusal participants locations transaction beside }
{
    transaction_numbers_refusal(
        participants as u64,
        locations as u64,
        TransactionNumbers::from(transaction),
    )?;
    spare_refusal(beside)
}
