// The exercise file, written from lists of numbers, eight bytes a number (document 02, tickets 1 and 2).
#![tactic(auto)]

ghost use Rattle.std.specs.Prelude.{◌≡◌, ◌+◌, ◌*◌, ◌≤◌, ◌<◌, length};
ghost use Rattle.std.proofs.lemmas.List.Edits.{sets};
ghost use Rattle.ints.specs.Refusal.{lent};
ghost use Rattle.ints.specs.Table.{tab};
ghost use Rattle.refusals.specs.Number.{answer};
ghost use Rattle.numbers.specs.Bytes.{number_at};
ghost use Rattle.hour.specs.Numbers.{as_row, as_transaction};
ghost use Rattle.exercise.specs.Inside.{header_bits, item_size, item_length};
ghost use Rattle.exercise.specs.Lists.{handed_over, counted, hour_given, write_refusal, write_outcome};
ghost use Rattle.exercise.specs.Written.{packed, bytes_high, run, price_bits, row_fields, transaction_fields, file_of, Fit};
ghost use Rattle.exercise_write.specs.Inside.{fields_given, FieldsFit, PricesFit, HeaderFits, Ready};

use exercise::{Counts, Header, HourLists, Item};
use hour::{Edition, RowNumbers, TransactionNumbers};
use refusals::Refusal;

// The N lowest bytes of a number, the highest first, from place k on.
fn put_high<const N: usize>(out: &mut [u8], k: usize, v: u64)
    requires { (k + N ≤ length out.old) × (N ≤ 8) }
    ensures { out.new ≡ sets out.old k (bytes_high N v) }
{
    let end = k + N;
    out[k..end].copy_from_slice(&v.to_be_bytes()[8 - N..]);
}

// ---- the header

fn header_bits(header: Header) -> u64
    requires { HeaderFits header }
    ensures { result ≡ header_bits header.participants header.locations header.rows header.transactions header.edition }
{
    ((((header.participants as u64 - 1) * 64 + (header.locations as u64 - 1)) * 4096
        + header.rows as u64)
        * 1024
        + header.transactions as u64)
        * 64
        + header.edition as u64
}

// ---- prices

// The first n prices of a list, after the header.
fn put_prices(out: &mut [u8], prices: &[u8], n: usize)
    requires { (5 + 3 * n ≤ length out.old) × (8 * n ≤ length prices.now) × PricesFit prices.now n }
    ensures { out.new ≡ sets out.old 5 (run 3 price_bits (tab (number_at prices.now) n)) }
{
    for j in 0..n {
        put_high::<3>(out, 5 + 3 * j, numbers::word_at(prices, j));
    }
}

// ---- rows and transactions

// A row as 48 bits.
fn row_bits(row: RowNumbers) -> u64
    requires { Fit (row_fields (as_row row)) }
    ensures { result ≡ packed (row_fields (as_row row)) }
{
    (((((row.market * 8 + row.kind) * 16 + row.interval) * 64 + row.participant) * 64
        + row.location)
        * 33554432
        + row.kw)
        * 8
}

// A transaction of an edition, as 48 bits, or with its seller as 56.
fn transaction_bits(edition: Edition, transaction: TransactionNumbers) -> u64
    requires { Fit (transaction_fields edition (as_transaction transaction)) }
    ensures { result ≡ packed (transaction_fields edition (as_transaction transaction)) }
{
    let TransactionNumbers {
        market,
        interval,
        participant,
        seller,
        source,
        sink,
        kw,
    } = transaction;
    match edition {
        Edition::PathOnly => {
            ((((market * 16 + interval) * 64 + participant) * 64 + source) * 64 + sink) * 33554432
                + kw
        }
        Edition::WithSeller => {
            ((((((market * 16 + interval) * 64 + participant) * 64 + seller) * 64 + source) * 64
                + sink)
                * 33554432
                + kw)
                * 4
        }
    }
}

// Item i of a list.
fn packed_at(item: Item, list: &[u8], i: usize) -> u64
    requires { (8 * (item_length item * i + item_length item) ≤ length list.now) × Fit (fields_given item list.now i) }
    ensures { result ≡ packed (fields_given item list.now i) }
{
    match item {
        Item::Row => row_bits(exercise_given::row_given(list, i)),
        Item::Transaction(edition) => {
            transaction_bits(edition, exercise_given::transaction_given(edition, list, i))
        }
    }
}

// The bytes of an item, as many as it has.
fn put_item(item: Item, out: &mut [u8], k: usize, v: u64)
    requires { k + item_size item ≤ length out.old }
    ensures { out.new ≡ sets out.old k (bytes_high (item_size item) v) }
{
    match item {
        Item::Transaction(Edition::WithSeller) => put_high::<7>(out, k, v),
        Item::Row | Item::Transaction(Edition::PathOnly) => put_high::<6>(out, k, v),
    }
}

// The first n items of a list, from place k on.
fn put_packed(item: Item, out: &mut [u8], k: usize, list: &[u8], n: usize)
    requires { (k + item_size item * n ≤ length out.old) × (8 * (item_length item * n) ≤ length list.now) × FieldsFit item list.now n }
    ensures { out.new ≡ sets out.old k (run (item_size item) packed (tab (fields_given item list.now) n)) }
{
    let size = exercise_editions::item_size(item);
    for i in 0..n {
        put_item(item, out, k + size * i, packed_at(item, list, i));
    }
}

// ---- the file

// The file of content that was tested.
fn put_file(header: Header, lists: HourLists, out: &mut [u8])
    requires { Ready header lists.prices.now lists.rows.now lists.transactions.now (length out.old) }
    ensures { out.new ≡ sets out.old 0 (file_of (hour_given (counted header lists.entry))) }
{
    put_high::<5>(out, 0, header_bits(header));
    put_prices(out, lists.prices, 26 * header.locations);
    let rows_at = 5 + 3 * (26 * header.locations);
    put_packed(Item::Row, out, rows_at, lists.rows, header.rows);
    let edition = exercise_editions::edition_of(header.edition as u64);
    put_packed(
        Item::Transaction(edition),
        out,
        rows_at + 6 * header.rows,
        lists.transactions,
        header.transactions,
    );
}

// The file of content whose counts and edition are in range, or its refusal.
fn write_counted(header: Header, lists: HourLists, file: &mut [u8]) -> Result<(), Refusal>
    requires { HeaderFits header }
    ensures value { answer result ≡ write_refusal (counted header lists.entry) (length file.old) }
    ensures file_after { file.new ≡ write_outcome (counted header lists.entry) file.old }
{
    exercise_lists::lists_refusal(
        header,
        lists.prices.len(),
        lists.rows.len(),
        lists.transactions.len(),
    )?;
    exercise_lists::content_refusal(header, lists)?;
    let edition = exercise_editions::edition_of(header.edition as u64);
    let size = exercise_editions::transaction_size(edition);
    if file.len() < 5 + 3 * (26 * header.locations) + 6 * header.rows + size * header.transactions {
        return Err(Refusal::Length);
    }
    put_file(header, lists, file);
    Ok(())
}

// The file of what is handed over, or its refusal.
pub fn write_file(counts: Counts, lists: HourLists, file: &mut [u8]) -> Result<(), Refusal>
    ensures value { answer result ≡ write_refusal (handed_over counts lists.entry) (length file.old) }
    ensures file_after { file.new ≡ write_outcome (handed_over counts lists.entry) file.old }
{
    exercise_lists::counts_refusal(counts)?;
    let header = Header {
        participants: counts.participants as usize,
        locations: counts.locations as usize,
        rows: counts.rows as usize,
        transactions: counts.transactions as usize,
        edition: counts.edition as usize,
    };
    write_counted(header, lists, file)
}
