// An exercise file read as lists of numbers, eight bytes a number (document 02, tickets 1 and 2).
#![tactic(auto)]

ghost use Rattle.std.specs.Prelude.{◌≡◌, ◌+◌, ◌*◌, ◌≤◌, length};
ghost use Rattle.ints.specs.Refusal.{lent};
ghost use Rattle.ints.specs.Table.{tab};
ghost use Rattle.refusals.specs.Number.{answer};
ghost use Rattle.numbers.specs.Bytes.{encoded};
ghost use Rattle.exercise.specs.File.{header, price_at, hour_of};
ghost use Rattle.exercise.specs.Lists.{count_numbers, file_counts_refusal, file_counts_outcome, read_refusal, row_numbers, transaction_length, transaction_numbers, prices_listed, rows_listed, transactions_listed};
ghost use Rattle.exercise.specs.Inside.{Small, item_size, item_length};
ghost use Rattle.exercise_read.specs.Inside.{numbers_at, listed_at, Long};
ghost use Rattle.hour.specs.declared.Edition.TheVariants as Edition;

use exercise::{Header, Item, Places};
use hour::{Edition, Row, Transaction};
use refusals::Refusal;

// The six numbers of a row.
pub fn put_row(row: Row, list: &mut [u8])
    requires { length list.old ≡ 48 }
    ensures { list.new ≡ encoded (row_numbers row) }
{
    let six = [
        row.market as i64,
        row.kind as i64,
        row.interval as i64,
        row.participant as i64,
        row.location as i64,
        row.kw.0 as i64,
    ];
    numbers::write_all(&six, list);
}

// Those of a transaction that is a path alone. A sale has one number more in their midst, so that one list for both would be made by the edition, too.
fn put_path(transaction: Transaction, list: &mut [u8])
    requires { length list.old ≡ 48 }
    ensures { list.new ≡ encoded (transaction_numbers Edition.PathOnly transaction) }
{
    let six = [
        transaction.market as i64,
        transaction.interval as i64,
        transaction.participant as i64,
        transaction.source as i64,
        transaction.sink as i64,
        transaction.kw.0 as i64,
    ];
    numbers::write_all(&six, list);
}

// The seven of one with a seller.
fn put_sale(sale: Transaction, list: &mut [u8])
    requires { length list.old ≡ 56 }
    ensures { list.new ≡ encoded (transaction_numbers Edition.WithSeller sale) }
{
    let seven = [
        sale.market as i64,
        sale.interval as i64,
        sale.participant as i64,
        sale.seller as i64,
        sale.source as i64,
        sale.sink as i64,
        sale.kw.0 as i64,
    ];
    numbers::write_all(&seven, list);
}

// Those of a transaction of an edition.
fn put_transaction(edition: Edition, transaction: Transaction, list: &mut [u8])
    requires { length list.old ≡ 8 * transaction_length edition }
    ensures { list.new ≡ encoded (transaction_numbers edition transaction) }
{
    match edition {
        Edition::PathOnly => put_path(transaction, list),
        Edition::WithSeller => put_sale(transaction, list),
    }
}

// Those of item i of a stretch.
fn put_at(item: Item, stretch: &[u8], i: usize, list: &mut [u8])
    requires item_in_bounds { item_size item * i + item_size item ≤ length stretch.now }
    requires list_len { length list.old ≡ 8 * item_length item }
    ensures { list.new ≡ encoded (numbers_at item stretch.now i) }
{
    match item {
        Item::Row => put_row(exercise_rows::read_row(stretch, i), list),
        Item::Transaction(edition) => put_transaction(
            edition,
            exercise_rows::read_transaction(edition, stretch, i),
            list,
        ),
    }
}

// Those of the first n.
fn put_all(item: Item, stretch: &[u8], n: usize, list: &mut [u8])
    requires n_in_bounds { item_size item * n ≤ length stretch.now }
    requires list_len { length list.old ≡ 8 * (item_length item * n) }
    ensures { list.new ≡ listed_at item stretch.now n }
{
    let each = 8 * exercise_editions::item_length(item);
    for i in 0..n {
        let from = each * i;
        let to = from + each;
        put_at(item, stretch, i, &mut list[from..to]);
    }
}

// The first n prices of a stretch.
fn put_prices(stretch: &[u8], n: usize, list: &mut [u8])
    requires { (3 * n ≤ length stretch.now) × (length list.old ≡ 8 * n) }
    ensures { list.new ≡ encoded (tab (price_at stretch.now) n) }
{
    for j in 0..n {
        numbers::put_number(list, j, exercise_prices::price_at(stretch, j).0);
    }
}

// The lists of a file that passes the order to its length.
fn put_lists(file: &[u8], prices: &mut [u8], row_list: &mut [u8], transaction_list: &mut [u8])
    requires { Long file.now (length prices.old) (length row_list.old) (length transaction_list.old) }
    ensures prices_after { prices.new ≡ prices_listed (hour_of file.now) }
    ensures row_list_after { row_list.new ≡ rows_listed (hour_of file.now) }
    ensures transaction_list_after { transaction_list.new ≡ transactions_listed (hour_of file.now) }
{
    let header = exercise_file::read_header(file);
    let Places {
        prices: prices_at,
        rows: rows_at,
        transactions: transactions_at,
        end,
    } = exercise_file::places_of(header);
    put_prices(&file[prices_at..rows_at], 26 * header.locations, prices);
    put_all(
        Item::Row,
        &file[rows_at..transactions_at],
        header.rows,
        row_list,
    );
    let edition = exercise_editions::edition_of(header.edition as u64);
    put_all(
        Item::Transaction(edition),
        &file[transactions_at..end],
        header.transactions,
        transaction_list,
    );
}

// The lists of a file that passes the order to its last transaction, or its refusal.
pub fn read_file(
    file: &[u8],
    prices: &mut [u8],
    row_list: &mut [u8],
    transaction_list: &mut [u8],
) -> Result<(), Refusal>
    ensures value { answer result ≡ read_refusal file.now (length prices.old) (length row_list.old) (length transaction_list.old) }
    ensures prices_after { prices.new ≡ lent (answer result) (prices_listed (hour_of file.now)) prices.old }
    ensures row_list_after { row_list.new ≡ lent (answer result) (rows_listed (hour_of file.now)) row_list.old }
    ensures transaction_list_after { transaction_list.new ≡ lent (answer result) (transactions_listed (hour_of file.now)) transaction_list.old }
{
    exercise_file::frame_refusal(file)?;
    let header = exercise_file::read_header(file);
    exercise_lists::lists_refusal(header, prices.len(), row_list.len(), transaction_list.len())?;
    exercise_file::content_refusal(file)?;
    put_lists(file, prices, row_list, transaction_list);
    Ok(())
}

// ---- counts

// The four counts of a header, and its edition.
fn put_counts(header: Header, counts: &mut [u8])
    requires small { Small header × (header.edition ≤ 1) }
    requires counts_len { length counts.old ≡ 40 }
    ensures { counts.new ≡ encoded (count_numbers header) }
{
    let five = [
        header.participants as i64,
        header.locations as i64,
        header.rows as i64,
        header.transactions as i64,
        header.edition as i64,
    ];
    numbers::write_all(&five, counts);
}

// The counts and the edition of a file that passes the order to its length, or its refusal.
pub fn read_counts(file: &[u8], counts: &mut [u8]) -> Result<(), Refusal>
    ensures value { answer result ≡ file_counts_refusal file.now (length counts.old) }
    ensures counts_after { counts.new ≡ file_counts_outcome file.now counts.old }
{
    exercise_file::frame_refusal(file)?;
    if counts.len() != 40 {
        return Err(Refusal::Length);
    }
    put_counts(exercise_file::read_header(file), counts);
    Ok(())
}
