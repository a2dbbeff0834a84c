// Why an hour in lists of numbers, eight bytes a number, is refused. `exercise_cause` says it of what stands packed in a file, by other definitions: a trait over both would be longer than the loops that they share.
#![tactic(auto)]

ghost use Rattle.std.specs.Prelude.{◌≡◌, ◌+◌, ◌*◌, ◌≤◌, length};
ghost use Rattle.numbers.specs.Bytes.{number_at};
ghost use Rattle.hour.specs.Cause.{of_header, tested, price_cause, content_cause};
ghost use Rattle.hour.specs.InsideCause.{first_from};
ghost use Rattle.hour.specs.InsideTold.{header_field, list_field, told};
ghost use Rattle.exercise.specs.Cause.{counts_cause, length_cause, lists_cause, listed_cause, given_cause};
ghost use Rattle.exercise.specs.Inside.{item_length};
ghost use Rattle.exercise.specs.Layout.{edition_of};
ghost use Rattle.exercise.specs.Lists.{counted, handed_over, hour_given, transaction_length, no_spare};
ghost use Rattle.exercise_list_cause.specs.Inside.{Taken, cause_given};

use exercise::{Counts, Header, HourLists, Item};
use hour::{Cause, HeaderField, ListField, Place, Sizes};
use refusals::Refusal;

// ---- counts and lengths

// A count.
fn count_cause(field: HeaderField, found: i64, least: i64, most: i64) -> Result<(), Cause>
    ensures { told result ≡ tested 1 of_header 0 (header_field field) found least most }
{
    hour_cause::in_range(Refusal::Length, Place::Header(field), found, least, most)
}

// The edition, and the counts.
#[tactic(auto, using(hour::proofs::Told::tests), unfolding(exercise::specs::Cause::counts_cause))]
fn counts_cause(counts: Counts) -> Result<(), Cause>
    ensures { told result ≡ counts_cause counts.participants counts.locations counts.rows counts.transactions counts.edition }
{
    hour_cause::in_range(
        Refusal::File,
        Place::Header(HeaderField::Edition),
        counts.edition,
        0,
        1,
    )?;
    count_cause(HeaderField::Participants, counts.participants, 1, 64)?;
    count_cause(HeaderField::Locations, counts.locations, 1, 64)?;
    count_cause(HeaderField::Rows, counts.rows, 0, 2048)?;
    count_cause(HeaderField::Transactions, counts.transactions, 0, 256)
}

// A list that has to have n numbers.
fn length_cause(list: ListField, bytes: usize, n: usize) -> Result<(), Cause>
    requires { n ≤ 12288 }
    ensures { told result ≡ length_cause (list_field list) bytes n }
{
    let long = (8 * n) as i64;
    hour_cause::in_range(
        Refusal::Length,
        Place::List(list),
        numbers::from_word(bytes as u64),
        long,
        long,
    )
}

// The three lists, by their lengths in bytes.
#[tactic(auto, using(hour::proofs::Told::tests), unfolding(exercise::specs::Cause::lists_cause))]
fn lists_cause(header: Header, lists: HourLists) -> Result<(), Cause>
    requires { Taken header }
    ensures { told result ≡ lists_cause header.locations header.rows header.transactions (edition_of header.edition) (length lists.entry.prices.now) (length lists.entry.rows.now) (length lists.entry.transactions.now) }
{
    let edition = exercise_editions::edition_of(header.edition as u64);
    length_cause(ListField::Prices, lists.prices.len(), 26 * header.locations)?;
    length_cause(ListField::Rows, lists.rows.len(), 6 * header.rows)?;
    length_cause(
        ListField::Transactions,
        lists.transactions.len(),
        exercise_editions::transaction_length(edition) * header.transactions,
    )
}

// ---- prices

// The first n prices of a list.
#[tactic(auto, using(hour::proofs::Told::turns))]
fn prices_cause(prices: &[u8], n: usize) -> Result<(), Cause>
    requires { (8 * n ≤ length prices.now) × (n ≤ 1664) }
    ensures { told result ≡ first_from (λ j. price_cause j (number_at prices.now j)) 0 n }
{
    for j in 0..n {
        hour_cause::price_cause(j as u32, numbers::number_at(prices, j))?;
    }
    Ok(())
}

// ---- rows and transactions

// Item i of a list.
fn cause_at(item: Item, sizes: Sizes, list: &[u8], i: usize) -> Result<(), Cause>
    requires { (8 * (item_length item * i + item_length item) ≤ length list.now) × (i ≤ 4095) }
    ensures { told result ≡ cause_given item sizes.participants sizes.locations list.now i }
{
    match item {
        Item::Row => hour_cause::row_cause(sizes, i as u32, exercise_given::row_given(list, i), 0),
        Item::Transaction(edition) => hour_cause::transaction_cause(
            sizes,
            i as u32,
            exercise_given::transaction_given(edition, list, i),
            0,
        ),
    }
}

// The first n of them.
#[tactic(auto, using(hour::proofs::Told::turns))]
fn first_cause(item: Item, sizes: Sizes, list: &[u8], n: usize) -> Result<(), Cause>
    requires { (8 * (item_length item * n) ≤ length list.now) × (n ≤ 4095) }
    ensures { told result ≡ first_from (cause_given item sizes.participants sizes.locations list.now) 0 n }
{
    for i in 0..n {
        cause_at(item, sizes, list, i)?;
    }
    Ok(())
}

// ---- all of it

// From the prices to the last transaction.
fn content_cause(header: Header, lists: HourLists) -> Result<(), Cause>
    requires counts { Taken header }
    requires lists { (8 * (26 * header.locations) ≤ length lists.prices.now) × (8 * (6 * header.rows) ≤ length lists.rows.now) × (8 * (transaction_length (edition_of header.edition) * header.transactions) ≤ length lists.transactions.now) }
    ensures { told result ≡ content_cause (hour_given (counted header lists.entry)) no_spare }
{
    let sizes = Sizes {
        participants: header.participants as u64,
        locations: header.locations as u64,
    };
    let edition = exercise_editions::edition_of(header.edition as u64);
    prices_cause(lists.prices, 26 * header.locations)?;
    first_cause(Item::Row, sizes, lists.rows, header.rows)?;
    first_cause(
        Item::Transaction(edition),
        sizes,
        lists.transactions,
        header.transactions,
    )
}

// The lengths, and from the prices to the last transaction.
#[tactic(auto, using(hour::proofs::Told::tests))]
fn counted_cause(header: Header, lists: HourLists) -> Result<(), Cause>
    requires { Taken header }
    ensures { told result ≡ listed_cause (counted header lists.entry) }
{
    lists_cause(header, lists)?;
    content_cause(header, lists)
}

// All of it, the edition and the counts first.
#[tactic(auto, using(hour::proofs::Told::tests), unfolding(exercise::specs::Cause::given_cause))]
pub fn list_cause(counts: Counts, lists: HourLists) -> Result<(), Cause>
    ensures { told result ≡ given_cause (handed_over counts lists.entry) }
{
    counts_cause(counts)?;
    let header = Header {
        participants: counts.participants as usize,
        locations: counts.locations as usize,
        rows: counts.rows as usize,
        transactions: counts.transactions as usize,
        edition: counts.edition as usize,
    };
    counted_cause(header, lists)
}
