// What is refused of an hour in lists of numbers, eight bytes a number (document 02, tickets 1 and 2).
// `exercise_prices` and `exercise_rows` test what stands packed in a file, by other definitions (`price_at`, `row_at`): a trait over both would be longer than the loops that they share.
#![tactic(auto)]

ghost use Rattle.std.specs.Prelude.{◌≡◌, ◌+◌, ◌*◌, ◌≤◌, length};
ghost use Rattle.ints.specs.Turn.{in_turn};
ghost use Rattle.refusals.specs.Number.{answer};
ghost use Rattle.hour.specs.Order.{content_refusal};
ghost use Rattle.exercise.specs.Inside.{item_length};
ghost use Rattle.exercise.specs.Layout.{edition_of};
ghost use Rattle.exercise.specs.Lists.{counted, hour_given, transaction_length, counts_refusal, lists_refusal, no_spare};
ghost use Rattle.exercise_lists.specs.Inside.{prices_given_refusal, refusal_given};

use exercise::{Counts, Header, HourLists, Item};
use refusals::Refusal;

// ---- counts and lengths

// What is refused of the counts and of the edition's number, which is tested first.
#[tactic(auto, unfolding(exercise::specs::Lists::counts_refusal))]
pub fn counts_refusal(counts: Counts) -> Result<(), Refusal>
    ensures { answer result ≡ counts_refusal counts.participants counts.locations counts.rows counts.transactions counts.edition }
{
    if !ints::is_between(counts.edition, 0, 1) {
        return Err(Refusal::File);
    }
    if !ints::is_between(counts.participants, 1, 64) {
        return Err(Refusal::Length);
    }
    if !ints::is_between(counts.locations, 1, 64) {
        return Err(Refusal::Length);
    }
    if !ints::is_between(counts.rows, 0, 2048) {
        return Err(Refusal::Length);
    }
    if !ints::is_between(counts.transactions, 0, 256) {
        return Err(Refusal::Length);
    }
    Ok(())
}

// What is refused of three lists of so many bytes, for the counts of a header.
#[tactic(auto, unfolding(exercise::specs::Lists::lists_refusal))]
pub fn lists_refusal(
    header: Header,
    prices: usize,
    row_list: usize,
    transaction_list: usize,
) -> Result<(), Refusal>
    requires { (header.locations ≤ 64) × (header.rows ≤ 4095) × (header.transactions ≤ 1023) }
    ensures { answer result ≡ lists_refusal header.locations header.rows header.transactions (edition_of header.edition) prices row_list transaction_list }
{
    if prices != 8 * (26 * header.locations) {
        return Err(Refusal::Length);
    }
    if row_list != 8 * (6 * header.rows) {
        return Err(Refusal::Length);
    }
    let edition = exercise_editions::edition_of(header.edition as u64);
    let each = exercise_editions::transaction_length(edition);
    if transaction_list != 8 * (each * header.transactions) {
        return Err(Refusal::Length);
    }
    Ok(())
}

// ---- prices

// What is refused of the first n prices of a list.
fn prices_refusal(prices: &[u8], n: usize) -> Result<(), Refusal>
    requires { 8 * n ≤ length prices.now }
    ensures { answer result ≡ prices_given_refusal prices.now n }
{
    for j in 0..n {
        hour_row_refusals::price_refusal(numbers::number_at(prices, j))?;
    }
    Ok(())
}

// ---- rows and transactions

// What is refused of item i of a list.
fn refusal_at(
    item: Item,
    participants: u64,
    locations: u64,
    list: &[u8],
    i: usize,
) -> Result<(), Refusal>
    requires { 8 * (item_length item * i + item_length item) ≤ length list.now }
    ensures { answer result ≡ refusal_given item participants locations list.now i }
{
    match item {
        Item::Row => hour_row_refusals::row_numbers_refusal(
            participants,
            locations,
            exercise_given::row_given(list, i),
        ),
        Item::Transaction(edition) => hour_row_refusals::transaction_numbers_refusal(
            participants,
            locations,
            exercise_given::transaction_given(edition, list, i),
        ),
    }
}

// What is refused of the first n items of a list in turn.
fn refusal_in_turn(
    item: Item,
    participants: u64,
    locations: u64,
    list: &[u8],
    n: usize,
) -> Result<(), Refusal>
    requires { 8 * (item_length item * n) ≤ length list.now }
    ensures { answer result ≡ in_turn (refusal_given item participants locations list.now) n }
{
    for i in 0..n {
        refusal_at(item, participants, locations, list, i)?;
    }
    Ok(())
}

// ---- all of it

// What is refused from the prices on, of an hour of these counts.
pub fn content_refusal(header: Header, lists: HourLists) -> Result<(), Refusal>
    requires { (8 * (26 * header.locations) ≤ length lists.prices.now) × (8 * (6 * header.rows) ≤ length lists.rows.now) × (8 * (transaction_length (edition_of header.edition) * header.transactions) ≤ length lists.transactions.now) }
    ensures { answer result ≡ content_refusal (hour_given (counted header lists.entry)) no_spare }
{
    prices_refusal(lists.prices, 26 * header.locations)?;
    let participants = header.participants as u64;
    let locations = header.locations as u64;
    refusal_in_turn(Item::Row, participants, locations, lists.rows, header.rows)?;
    let edition = exercise_editions::edition_of(header.edition as u64);
    refusal_in_turn(
        Item::Transaction(edition),
        participants,
        locations,
        lists.transactions,
        header.transactions,
    )
}
