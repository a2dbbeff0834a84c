// The rows and transactions of the exercise file (document 01, "The exercise file"), six packed bytes each, and transactions with a seller seven: decoded, one by one and in
// turn.
#![tactic(auto)]

ghost use Rattle.std.specs.Prelude.{◌≡◌, ◌+◌, ◌*◌, ◌^◌, ◌≤◌, ◌<◌, length};
ghost use Rattle.ints.specs.Turn.{in_turn};
ghost use Rattle.exercise.specs.Packed.{bytes_at};
ghost use Rattle.hour.specs.declared.Edition.TheVariants as Edition;
ghost use Rattle.exercise.specs.File.{row_of, row_at, row_spare, packed_row, transaction_of, transaction_at, transaction_spare, packed_transaction};
ghost use Rattle.exercise.specs.Layout.{transaction_size};
ghost use Rattle.exercise.specs.Order.{transaction_refusal_at};
ghost use Rattle.exercise.specs.Decoding.{given_refusal, decoded_row, decoded_transaction};
ghost use Rattle.exercise_rows.specs.Inside.{refusal_at, alone_refusal};
ghost use Rattle.refusals.specs.Number.{answer, numbered};
ghost use Rattle.exercise.specs.Inside.{item_size, decoded_row_at, decoded_transaction_at, rows_in_refusal, transactions_in_refusal};

use exercise::Item;
use hour::{Edition, Row, Transaction};
use refusals::Refusal;
use units::Kw;

// The N bytes from k on as one number, the first highest.
pub fn bytes_at<const N: usize>(s: &[u8], k: usize) -> u64
    requires { (k + N ≤ length s.now) × (N ≤ 7) }
    ensures { result ≡ bytes_at s.now k N × (result < 256 ^ N) }
{
    let mut v: u64 = 0;
    for i in 0..N {
        v = 256 * v + u64::from(s[k + i]);
    }
    v
}

// ---- rows

// The row of 48 bits.
fn row_of(v: u64) -> Row
    ensures { result ≡ row_of v }
{
    Row {
        market: (v / 140737488355328 % 2) as u8,
        kind: (v / 17592186044416 % 8) as u8,
        interval: (v / 1099511627776 % 16) as u8,
        participant: (v / 17179869184 % 64) as u8,
        location: (v / 268435456 % 64) as u16,
        kw: Kw((v / 8 % 33554432) as u32),
    }
}

// Row i of a stretch of rows, as it stands there.
pub fn read_row(rows: &[u8], i: usize) -> Row
    requires { 6 * i + 6 ≤ length rows.now }
    ensures { result ≡ row_at rows.now i }
{
    row_of(bytes_at::<6>(rows, 6 * i))
}

// Its spare bits.
pub fn row_spare(rows: &[u8], i: usize) -> u64
    requires { 6 * i + 6 ≤ length rows.now }
    ensures { result ≡ row_spare (packed_row rows.now i) }
{
    bytes_at::<6>(rows, 6 * i) / 1 % 8
}

// The same, tested.
pub fn row_at(participants: usize, locations: usize, rows: &[u8], i: usize) -> Result<Row, Refusal>
    requires { 6 * i + 6 ≤ length rows.now }
    ensures { numbered result ≡ decoded_row_at participants locations rows.now i }
{
    let v = bytes_at::<6>(rows, 6 * i);
    let row = row_of(v);
    hour_row_refusals::packed_row_refusal(participants, locations, row, v / 1 % 8)?;
    Ok(row)
}

// ---- transactions

// Transaction i of a stretch of transactions, packed.
fn packed_transaction(edition: Edition, transactions: &[u8], i: usize) -> u64
    requires { transaction_size edition * i + transaction_size edition ≤ length transactions.now }
    ensures { result ≡ packed_transaction edition transactions.now i }
{
    match edition {
        Edition::PathOnly => bytes_at::<6>(transactions, 6 * i),
        Edition::WithSeller => bytes_at::<7>(transactions, 7 * i),
    }
}

// The transaction of 48 bits, a path alone: it has no seller. One function for both layouts would choose six divisors by the edition, and be no shorter.
fn path_of(v: u64) -> Transaction
    ensures { result ≡ transaction_of Edition.PathOnly v }
{
    Transaction {
        market: (v / 140737488355328 % 2) as u8,
        interval: (v / 8796093022208 % 16) as u8,
        participant: (v / 137438953472 % 64) as u8,
        seller: 0,
        source: (v / 2147483648 % 64) as u16,
        sink: (v / 33554432 % 64) as u16,
        kw: Kw((v / 1 % 33554432) as u32),
    }
}

// The transaction of 56 bits, with its seller.
fn sale_of(v: u64) -> Transaction
    ensures { result ≡ transaction_of Edition.WithSeller v }
{
    Transaction {
        market: (v / 36028797018963968 % 2) as u8,
        interval: (v / 2251799813685248 % 16) as u8,
        participant: (v / 35184372088832 % 64) as u8,
        seller: (v / 549755813888 % 64) as u8,
        source: (v / 8589934592 % 64) as u16,
        sink: (v / 134217728 % 64) as u16,
        kw: Kw((v / 4 % 33554432) as u32),
    }
}

fn transaction_of(edition: Edition, v: u64) -> Transaction
    ensures { result ≡ transaction_of edition v }
{
    match edition {
        Edition::PathOnly => path_of(v),
        Edition::WithSeller => sale_of(v),
    }
}

// Its spare bits; a path alone has none.
fn spare_of(edition: Edition, v: u64) -> u64
    ensures { result ≡ transaction_spare edition v }
{
    match edition {
        Edition::PathOnly => 0,
        Edition::WithSeller => v / 1 % 4,
    }
}

// Transaction i of a stretch of transactions, as it stands there.
pub fn read_transaction(edition: Edition, transactions: &[u8], i: usize) -> Transaction
    requires { transaction_size edition * i + transaction_size edition ≤ length transactions.now }
    ensures { result ≡ transaction_at edition transactions.now i }
{
    transaction_of(edition, packed_transaction(edition, transactions, i))
}

// Its spare bits.
pub fn transaction_spare(edition: Edition, transactions: &[u8], i: usize) -> u64
    requires { transaction_size edition * i + transaction_size edition ≤ length transactions.now }
    ensures { result ≡ transaction_spare edition (packed_transaction edition transactions.now i) }
{
    spare_of(edition, packed_transaction(edition, transactions, i))
}

// The same, tested.
pub fn transaction_at(
    edition: Edition,
    participants: usize,
    locations: usize,
    transactions: &[u8],
    i: usize,
) -> Result<Transaction, Refusal>
    requires { transaction_size edition * i + transaction_size edition ≤ length transactions.now }
    ensures { numbered result ≡ decoded_transaction_at edition participants locations transactions.now i }
{
    let v = packed_transaction(edition, transactions, i);
    let transaction = transaction_of(edition, v);
    hour_row_refusals::packed_transaction_refusal(
        participants,
        locations,
        transaction,
        spare_of(edition, v),
    )?;
    Ok(transaction)
}

// ---- refusals of rows, or of transactions, in turn

// What is refused of transaction i of a stretch. It is tested here by itself, so that `transaction_at` has one caller, the loop that charges, and becomes part of it.
fn transaction_refusal(
    edition: Edition,
    participants: usize,
    locations: usize,
    transactions: &[u8],
    i: usize,
) -> Result<(), Refusal>
    requires { transaction_size edition * i + transaction_size edition ≤ length transactions.now }
    ensures { answer result ≡ transaction_refusal_at edition participants locations transactions.now i }
{
    let v = packed_transaction(edition, transactions, i);
    hour_row_refusals::packed_transaction_refusal(
        participants,
        locations,
        transaction_of(edition, v),
        spare_of(edition, v),
    )
}

// What is refused of item i of a stretch.
fn refusal_at(
    item: Item,
    participants: usize,
    locations: usize,
    stretch: &[u8],
    i: usize,
) -> Result<(), Refusal>
    requires { item_size item * i + item_size item ≤ length stretch.now }
    ensures { answer result ≡ refusal_at item participants locations stretch.now i }
{
    match item {
        Item::Row => {
            row_at(participants, locations, stretch, i)?;
            Ok(())
        }
        Item::Transaction(edition) => {
            transaction_refusal(edition, participants, locations, stretch, i)
        }
    }
}

// What is refused of the first n items of a stretch in turn. n counts items, and the stretch bytes: cut to its length, it would have to be divided.
fn refusal_in_turn(
    item: Item,
    participants: usize,
    locations: usize,
    stretch: &[u8],
    n: usize,
) -> Result<(), Refusal>
    requires { item_size item * n ≤ length stretch.now }
    ensures { answer result ≡ in_turn (refusal_at item participants locations stretch.now) n }
{
    for i in 0..n {
        refusal_at(item, participants, locations, stretch, i)?;
    }
    Ok(())
}

// The same of rows, which both editions have alike.
pub fn rows_refusal(
    participants: usize,
    locations: usize,
    rows: &[u8],
    n: usize,
) -> Result<(), Refusal>
    requires { 6 * n ≤ length rows.now }
    ensures { answer result ≡ rows_in_refusal participants locations rows.now n }
{
    refusal_in_turn(Item::Row, participants, locations, rows, n)
}

// The same of transactions.
pub fn transactions_refusal(
    edition: Edition,
    participants: usize,
    locations: usize,
    transactions: &[u8],
    n: usize,
) -> Result<(), Refusal>
    requires { transaction_size edition * n ≤ length transactions.now }
    ensures { answer result ≡ transactions_in_refusal edition participants locations transactions.now n }
{
    refusal_in_turn(
        Item::Transaction(edition),
        participants,
        locations,
        transactions,
        n,
    )
}

// ---- one row, or one transaction, by itself

// What is refused of the counts and the number of bytes.
fn given_refusal(
    participants: i64,
    locations: i64,
    bytes: usize,
    size: usize,
) -> Result<(), Refusal>
    ensures { answer result ≡ given_refusal participants locations bytes size }
{
    if !ints::is_between(participants, 1, 64) {
        return Err(Refusal::Length);
    }
    if !ints::is_between(locations, 1, 64) {
        return Err(Refusal::Length);
    }
    if bytes != size {
        return Err(Refusal::File);
    }
    Ok(())
}

// What is refused of an item by itself.
fn alone_refusal(item: Item, participants: i64, locations: i64, bytes: &[u8]) -> Result<(), Refusal>
    ensures { answer result ≡ alone_refusal item participants locations bytes.now }
{
    let size = exercise_editions::item_size(item);
    given_refusal(participants, locations, bytes.len(), size)?;
    refusal_at(item, participants as usize, locations as usize, bytes, 0)
}

// One row of six bytes.
pub fn decode_row(participants: i64, locations: i64, row: &[u8]) -> Result<Row, Refusal>
    ensures { numbered result ≡ decoded_row participants locations row.now }
{
    alone_refusal(Item::Row, participants, locations, row)?;
    Ok(read_row(row, 0))
}

// One transaction, of six bytes or seven.
pub fn decode_transaction(
    edition: Edition,
    participants: i64,
    locations: i64,
    transaction: &[u8],
) -> Result<Transaction, Refusal>
    ensures { numbered result ≡ decoded_transaction edition participants locations transaction.now }
{
    alone_refusal(
        Item::Transaction(edition),
        participants,
        locations,
        transaction,
    )?;
    Ok(read_transaction(edition, transaction, 0))
}
