// Why an exercise file is refused, up to its last transaction.
#![tactic(auto)]

ghost use Rattle.std.specs.Prelude.{◌≡◌, ◌+◌, ◌*◌, ◌≤◌, pos, length};
ghost use Rattle.refusals.specs.Number.{number};
ghost use Rattle.hour.specs.Cause.{as_number, tested as Cause·tested, price_cause, content_cause};
ghost use Rattle.hour.specs.InsideCause.{first_from};
ghost use Rattle.hour.specs.InsideTold.{part_of, number_of, field_of, told};
ghost use Rattle.exercise.specs.Cause.{header_cause, frame_cause};
ghost use Rattle.exercise.specs.File.{price_at, hour_of};
ghost use Rattle.exercise.specs.Inside.{Small, item_size};
ghost use Rattle.exercise.specs.Order.{frame_refusal, spare_of};
ghost use Rattle.exercise_cause.specs.Inside.{cause_at};

use exercise::{Header, Item, Places};
use hour::{Cause, HeaderField, Place, RowNumbers, Sizes, TransactionNumbers};
use refusals::Refusal;

// ---- the header and the length

// A number that has to be least to most.
fn tested(
    refusal: Refusal,
    place: Place,
    found: usize,
    least: usize,
    most: usize,
) -> Result<(), Cause>
    requires { (least ≤ most) × (most ≤ 9223372036854775807) }
    ensures { told result ≡ Cause·tested (number refusal) (part_of place) (number_of place) (field_of place) (as_number found) (pos least) (pos most) }
{
    hour_cause::in_range(
        refusal,
        place,
        numbers::from_word(found as u64),
        least as i64,
        most as i64,
    )
}

// A header in a file of so many bytes.
#[tactic(auto, using(hour::proofs::Told::tests), unfolding(exercise::specs::Cause::header_cause))]
fn header_cause(header: Header, bytes: usize) -> Result<(), Cause>
    requires { Small header }
    ensures { told result ≡ header_cause header bytes }
{
    let end = exercise_file::places_of(header).end;
    tested(
        Refusal::File,
        Place::Header(HeaderField::Edition),
        header.edition,
        0,
        1,
    )?;
    tested(
        Refusal::Length,
        Place::Header(HeaderField::Rows),
        header.rows,
        0,
        2048,
    )?;
    tested(
        Refusal::Length,
        Place::Header(HeaderField::Transactions),
        header.transactions,
        0,
        256,
    )?;
    tested(Refusal::File, Place::File, bytes, end, end)
}

// The order to the file's length.
#[tactic(auto, unfolding(exercise::specs::Cause::frame_cause))]
pub fn frame_cause(file: &[u8]) -> Result<(), Cause>
    ensures { told result ≡ frame_cause file.now }
{
    if file.len() < 5 {
        return Err(Cause {
            refusal: Refusal::File,
            place: Place::File,
            found: numbers::from_word(file.len() as u64),
            least: 83,
            most: 19077,
        });
    }
    header_cause(exercise_file::read_header(file), file.len())
}

// ---- prices

// The first n prices of a stretch.
#[tactic(auto, using(hour::proofs::Told::turns))]
fn prices_cause(prices: &[u8], n: usize) -> Result<(), Cause>
    requires { (3 * n ≤ length prices.now) × (n ≤ 1664) }
    ensures { told result ≡ first_from (λ j. price_cause j (price_at prices.now j)) 0 n }
{
    for j in 0..n {
        hour_cause::price_cause(j as u32, exercise_prices::price_at(prices, j).0)?;
    }
    Ok(())
}

// ---- rows and transactions

// Item i of a stretch.
fn cause_at(item: Item, sizes: Sizes, stretch: &[u8], i: usize) -> Result<(), Cause>
    requires { (item_size item * i + item_size item ≤ length stretch.now) × (i ≤ 4095) }
    ensures { told result ≡ cause_at item sizes.participants sizes.locations stretch.now i }
{
    match item {
        Item::Row => hour_cause::row_cause(
            sizes,
            i as u32,
            RowNumbers::from(exercise_rows::read_row(stretch, i)),
            exercise_rows::row_spare(stretch, i),
        ),
        Item::Transaction(edition) => hour_cause::transaction_cause(
            sizes,
            i as u32,
            TransactionNumbers::from(exercise_rows::read_transaction(edition, stretch, i)),
            exercise_rows::transaction_spare(edition, stretch, i),
        ),
    }
}

// The first n of them.
#[tactic(auto, using(hour::proofs::Told::turns))]
fn first_cause(item: Item, sizes: Sizes, stretch: &[u8], n: usize) -> Result<(), Cause>
    requires { (item_size item * n ≤ length stretch.now) × (n ≤ 4095) }
    ensures { told result ≡ first_from (cause_at item sizes.participants sizes.locations stretch.now) 0 n }
{
    for i in 0..n {
        cause_at(item, sizes, stretch, i)?;
    }
    Ok(())
}

// ---- all of it

// From the prices to the last transaction, of a file that passes the order to its length. It stays a call, so that what it needs of the stack is given back before
// its caller adds the hour up.
#[inline(never)]
pub fn content_cause(file: &[u8]) -> Result<(), Cause>
    requires { frame_refusal file.now ≡ 0 }
    ensures { told result ≡ content_cause (hour_of file.now) (spare_of file.now) }
{
    let header = exercise_file::read_header(file);
    let Places {
        prices,
        rows,
        transactions,
        end,
    } = exercise_file::places_of(header);
    let sizes = Sizes {
        participants: header.participants as u64,
        locations: header.locations as u64,
    };
    let edition = exercise_editions::edition_of(header.edition as u64);
    prices_cause(&file[prices..rows], 26 * header.locations)?;
    first_cause(Item::Row, sizes, &file[rows..transactions], header.rows)?;
    first_cause(
        Item::Transaction(edition),
        sizes,
        &file[transactions..end],
        header.transactions,
    )
}
