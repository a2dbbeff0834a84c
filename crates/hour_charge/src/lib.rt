// Charging an hour: the rows and transactions of an exercise file, at its two price lists, to exact totals.
// What is lent stays parameters: of a struct of `&mut` a clause would have to say `totals.exit.0.now` for `exact_congestion.new`.
#![tactic(auto)]

ghost use Rattle.std.specs.Prelude.{◌≡◌, ◌*◌, ◌≤◌, length};
ghost use Rattle.ints.specs.InsideRange.{InRange};
ghost use Rattle.ints.specs.Refusal.{lent};
ghost use Rattle.refusals.specs.Number.{answer};
ghost use Rattle.ints.specs.Table.{tab};
ghost use Rattle.exercise.specs.File.{rows_in, transactions_in, hour_of};
ghost use Rattle.exercise.specs.Layout.{transaction_size, edition_of};
ghost use Rattle.exercise.specs.Order.{frame_refusal, spare_of};
ghost use Rattle.hour.specs.Hour.{congestion_prices, loss_prices};
ghost use Rattle.hour.specs.InsideParts.{listed_prices};
ghost use Rattle.hour_weights.specs.Inside.{Listed, Table};
ghost use Rattle.hour.specs.InsideTotals.{rows_most, Charged, Shared};
ghost use Rattle.hour_charge.specs.Inside.{Totals, RowsAdded, SharesAdded, TransactionsAdded, BothAdded, ChargedIn, Stretches, congestion_in, loss_in};
ghost use Rattle.hour.specs.Charges.{exact_congestion_of, exact_loss_of};
ghost use Rattle.hour.specs.Surplus.{share_of};
ghost use Rattle.exercise.specs.Inside.{rows_in_refusal, transactions_in_refusal, both_refusal, stretches_refusal};
ghost use Rattle.hour.specs.Order.{content_refusal};

use exercise::{Header, Places};
use hour::Edition;
use refusals::Refusal;

// ---- rows and transactions in turn: each is read once, and counts for congestion and for losses

// The first n rows of a stretch, up to the first that is refused.
fn charge_rows(
    participants: usize,
    locations: usize,
    rows: &[u8],
    n: usize,
    congestion: &[i32],
    loss: &[i32],
    exact_congestion: &mut [i64],
    exact_loss: &mut [i64],
    shares: &mut [i64],
) -> Result<(), Refusal>
    requires n_bound { (n ≤ 2048) × (6 * n ≤ length rows.now) }
    requires table { Table locations congestion.now × Table locations loss.now }
    requires totals { Totals participants exact_congestion.old 0 × Totals participants exact_loss.old 0 × Totals participants shares.old 0 }
    ensures value { answer result ≡ rows_in_refusal participants locations rows.now n }
    ensures rows_added { answer result ≡ 0 → RowsAdded (rows_in rows.now n) locations congestion.now exact_congestion.old exact_congestion.new × InRange exact_congestion.new rows_most }
    ensures rows_added_2 { answer result ≡ 0 → RowsAdded (rows_in rows.now n) locations loss.now exact_loss.old exact_loss.new × InRange exact_loss.new rows_most }
    ensures shares_added { answer result ≡ 0 → SharesAdded (rows_in rows.now n) shares.old shares.new }
{
    for i in 0..n {
        let decoded = exercise_rows::row_at(participants, locations, rows, i);
        let Ok(row) = decoded else {
            return decoded.and(Ok(()));
        };
        hour_totals::add_row(row, locations, congestion, exact_congestion);
        hour_totals::add_row(row, locations, loss, exact_loss);
        hour_totals::add_share(row, shares);
    }
    Ok(())
}

// The first n transactions of a stretch, up to the first that is refused.
fn charge_transactions(
    edition: Edition,
    participants: usize,
    locations: usize,
    transactions: &[u8],
    n: usize,
    congestion: &[i32],
    loss: &[i32],
    exact_congestion: &mut [i64],
    exact_loss: &mut [i64],
) -> Result<(), Refusal>
    requires n_bound { (n ≤ 256) × (transaction_size edition * n ≤ length transactions.now) }
    requires table { Table locations congestion.now × Table locations loss.now }
    requires totals { Totals participants exact_congestion.old rows_most × Totals participants exact_loss.old rows_most }
    ensures value { answer result ≡ transactions_in_refusal edition participants locations transactions.now n }
    ensures transactions_added { answer result ≡ 0 → TransactionsAdded edition (transactions_in edition transactions.now n) locations congestion.now exact_congestion.old exact_congestion.new }
    ensures transactions_added_2 { answer result ≡ 0 → TransactionsAdded edition (transactions_in edition transactions.now n) locations loss.now exact_loss.old exact_loss.new }
{
    for i in 0..n {
        let decoded = exercise_rows::transaction_at(
            edition,
            participants,
            locations,
            transactions,
            i,
        );
        let Ok(transaction) = decoded else {
            return decoded.and(Ok(()));
        };
        hour_totals::add_transaction(
            edition,
            transaction,
            locations,
            congestion,
            exact_congestion,
        );
        hour_totals::add_transaction(edition, transaction, locations, loss, exact_loss);
    }
    Ok(())
}

// Charges rows, then transactions, up to the first that is refused.
fn charge_both(
    header: Header,
    rows: &[u8],
    transactions: &[u8],
    congestion: &[i32],
    loss: &[i32],
    exact_congestion: &mut [i64],
    exact_loss: &mut [i64],
    shares: &mut [i64],
) -> Result<(), Refusal>
    requires rows_bound { (header.rows ≤ 2048) × (header.transactions ≤ 256) × (6 * header.rows ≤ length rows.now) × (transaction_size (edition_of header.edition) * header.transactions ≤ length transactions.now) }
    requires table { Table header.locations congestion.now × Table header.locations loss.now }
    requires totals { Totals header.participants exact_congestion.old 0 × Totals header.participants exact_loss.old 0 × Totals header.participants shares.old 0 }
    ensures value { answer result ≡ both_refusal header rows.now transactions.now }
    ensures both_added { answer result ≡ 0 → BothAdded header rows.now transactions.now congestion.now exact_congestion.new }
    ensures both_added_2 { answer result ≡ 0 → BothAdded header rows.now transactions.now loss.now exact_loss.new }
    ensures shared { answer result ≡ 0 → Shared (rows_in rows.now header.rows) shares.new }
{
    charge_rows(
        header.participants,
        header.locations,
        rows,
        header.rows,
        congestion,
        loss,
        exact_congestion,
        exact_loss,
        shares,
    )?;
    charge_transactions(
        exercise_editions::edition_of(header.edition as u64),
        header.participants,
        header.locations,
        transactions,
        header.transactions,
        congestion,
        loss,
        exact_congestion,
        exact_loss,
    )
}

// Rows and transactions at two price lists. The tables come in the place of the lists.
fn charge_listed(
    header: Header,
    rows: &[u8],
    transactions: &[u8],
    congestion: &mut [i32],
    loss: &mut [i32],
    exact_congestion: &mut [i64],
    exact_loss: &mut [i64],
    shares: &mut [i64],
) -> Result<(), Refusal>
    requires rows_bound { (header.rows ≤ 2048) × (header.transactions ≤ 256) × (6 * header.rows ≤ length rows.now) × (transaction_size (edition_of header.edition) * header.transactions ≤ length transactions.now) }
    requires listed { Listed header.locations congestion.old × Listed header.locations loss.old }
    requires totals { Totals header.participants exact_congestion.old 0 × Totals header.participants exact_loss.old 0 × Totals header.participants shares.old 0 }
    ensures value { answer result ≡ both_refusal header rows.now transactions.now }
    ensures charged_in { answer result ≡ 0 → ChargedIn header (listed_prices header.locations congestion.old) rows.now transactions.now exact_congestion.new }
    ensures charged_in_2 { answer result ≡ 0 → ChargedIn header (listed_prices header.locations loss.old) rows.now transactions.now exact_loss.new }
    ensures shared { answer result ≡ 0 → Shared (rows_in rows.now header.rows) shares.new }
{
    hour_weights::weigh(congestion, header.locations);
    hour_weights::weigh(loss, header.locations);
    charge_both(
        header,
        rows,
        transactions,
        congestion,
        loss,
        exact_congestion,
        exact_loss,
        shares,
    )
}

// ---- the stretches of a file: prices, rows and transactions

// Charges these, prices first, then rows and transactions, up to the first refusal. The price lists are read into the lists that are lent for them.
fn charge_priced(
    header: Header,
    prices: &[u8],
    rows: &[u8],
    transactions: &[u8],
    congestion: &mut [i32],
    loss: &mut [i32],
    exact_congestion: &mut [i64],
    exact_loss: &mut [i64],
    shares: &mut [i64],
) -> Result<(), Refusal>
    requires stretches { Stretches header prices.now rows.now transactions.now }
    requires congestion_len { (length congestion.old ≡ 13 * header.locations) × (length loss.old ≡ 13 * header.locations) }
    requires totals { Totals header.participants exact_congestion.old 0 × Totals header.participants exact_loss.old 0 × Totals header.participants shares.old 0 }
    ensures value { answer result ≡ stretches_refusal header prices.now rows.now transactions.now }
    ensures charged_in { answer result ≡ 0 → ChargedIn header (congestion_in header prices.now) rows.now transactions.now exact_congestion.new }
    ensures charged_in_2 { answer result ≡ 0 → ChargedIn header (loss_in header prices.now) rows.now transactions.now exact_loss.new }
    ensures shared { answer result ≡ 0 → Shared (rows_in rows.now header.rows) shares.new }
{
    exercise_prices::read_list(prices, 0, congestion)?;
    exercise_prices::read_list(prices, 13 * header.locations, loss)?;
    charge_listed(
        header,
        rows,
        transactions,
        congestion,
        loss,
        exact_congestion,
        exact_loss,
        shares,
    )
}

// The same, with price lists of its own, which have room for N prices.
fn charge_sized<const N: usize>(
    header: Header,
    prices: &[u8],
    rows: &[u8],
    transactions: &[u8],
    exact_congestion: &mut [i64],
    exact_loss: &mut [i64],
    shares: &mut [i64],
) -> Result<(), Refusal>
    requires room { (13 * header.locations ≤ N) × (N ≤ 832) }
    requires stretches { Stretches header prices.now rows.now transactions.now }
    requires totals { Totals header.participants exact_congestion.old 0 × Totals header.participants exact_loss.old 0 × Totals header.participants shares.old 0 }
    ensures value { answer result ≡ stretches_refusal header prices.now rows.now transactions.now }
    ensures charged_in { answer result ≡ 0 → ChargedIn header (congestion_in header prices.now) rows.now transactions.now exact_congestion.new }
    ensures charged_in_2 { answer result ≡ 0 → ChargedIn header (loss_in header prices.now) rows.now transactions.now exact_loss.new }
    ensures shared { answer result ≡ 0 → Shared (rows_in rows.now header.rows) shares.new }
{
    let m = 13 * header.locations;
    let mut congestion = [0i32; N];
    let mut loss = [0i32; N];
    charge_priced(
        header,
        prices,
        rows,
        transactions,
        &mut congestion[..m],
        &mut loss[..m],
        exact_congestion,
        exact_loss,
        shares,
    )
}

// The same. A few locations need not pay for the room of 64.
fn charge_stretches(
    header: Header,
    prices: &[u8],
    rows: &[u8],
    transactions: &[u8],
    exact_congestion: &mut [i64],
    exact_loss: &mut [i64],
    shares: &mut [i64],
) -> Result<(), Refusal>
    requires stretches { Stretches header prices.now rows.now transactions.now }
    requires totals { Totals header.participants exact_congestion.old 0 × Totals header.participants exact_loss.old 0 × Totals header.participants shares.old 0 }
    ensures value { answer result ≡ stretches_refusal header prices.now rows.now transactions.now }
    ensures charged_in { answer result ≡ 0 → ChargedIn header (congestion_in header prices.now) rows.now transactions.now exact_congestion.new }
    ensures charged_in_2 { answer result ≡ 0 → ChargedIn header (loss_in header prices.now) rows.now transactions.now exact_loss.new }
    ensures shared { answer result ≡ 0 → Shared (rows_in rows.now header.rows) shares.new }
{
    if 13 * header.locations <= 104 {
        return charge_sized::<104>(
            header,
            prices,
            rows,
            transactions,
            exact_congestion,
            exact_loss,
            shares,
        );
    }
    charge_sized::<832>(
        header,
        prices,
        rows,
        transactions,
        exact_congestion,
        exact_loss,
        shares,
    )
}

// ---- the file

// The exact charges and the shares of a file that passes the order to its length. What is refused is so from the prices on.
fn charge_file(
    file: &[u8],
    exact_congestion: &mut [i64],
    exact_loss: &mut [i64],
    shares: &mut [i64],
) -> Result<(), Refusal>
    requires file_value { frame_refusal file.now ≡ 0 }
    requires totals { Totals (hour_of file.now).participants exact_congestion.old 0 × Totals (hour_of file.now).participants exact_loss.old 0 × Totals (hour_of file.now).participants shares.old 0 }
    ensures value { answer result ≡ content_refusal (hour_of file.now) (spare_of file.now) }
    ensures charged { answer result ≡ 0 → Charged (hour_of file.now).edition (congestion_prices (hour_of file.now)) (hour_of file.now).rows (hour_of file.now).transactions exact_congestion.new }
    ensures charged_2 { answer result ≡ 0 → Charged (hour_of file.now).edition (loss_prices (hour_of file.now)) (hour_of file.now).rows (hour_of file.now).transactions exact_loss.new }
    ensures shared { answer result ≡ 0 → Shared (hour_of file.now).rows shares.new }
{
    let header = exercise_file::read_header(file);
    let Places {
        prices,
        rows,
        transactions,
        end,
    } = exercise_file::places_of(header);
    charge_stretches(
        header,
        &file[prices..rows],
        &file[rows..transactions],
        &file[transactions..end],
        exact_congestion,
        exact_loss,
        shares,
    )
}

// The same, and where the file is refused, what was added is cleared: the lists are zeros again.
pub fn charge_hour(
    file: &[u8],
    exact_congestion: &mut [i64],
    exact_loss: &mut [i64],
    shares: &mut [i64],
) -> Result<(), Refusal>
    requires file_value { frame_refusal file.now ≡ 0 }
    requires totals { Totals (hour_of file.now).participants exact_congestion.old 0 × Totals (hour_of file.now).participants exact_loss.old 0 × Totals (hour_of file.now).participants shares.old 0 }
    ensures value { answer result ≡ content_refusal (hour_of file.now) (spare_of file.now) }
    ensures exact_congestion_after { exact_congestion.new ≡ lent (answer result) (tab (exact_congestion_of (hour_of file.now)) (length exact_congestion.old)) exact_congestion.old }
    ensures exact_loss_after { exact_loss.new ≡ lent (answer result) (tab (exact_loss_of (hour_of file.now)) (length exact_loss.old)) exact_loss.old }
    ensures shares_after { shares.new ≡ lent (answer result) (tab (share_of (hour_of file.now)) (length shares.old)) shares.old }
{
    if let Err(refusal) = charge_file(file, exact_congestion, exact_loss, shares) {
        ints::clear(exact_congestion);
        ints::clear(exact_loss);
        ints::clear(shares);
        return Err(refusal);
    }
    Ok(())
}
