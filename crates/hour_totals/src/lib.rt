// Each participant's running totals: what a row or a transaction adds to them.
#![tactic(auto)]

ghost use Rattle.std.specs.Prelude.{◌≡◌, ◌≤◌, ◌<◌, pos, ◌+ℤ◌, ◌-ℤ◌, ◌*ℤ◌, length, set};
ghost use Rattle.std.specs.Int.{w64};
ghost use Rattle.std.proofs.Common.{SFits};
ghost use Rattle.ints.specs.InsideRange.{Within, InRange};
ghost use Rattle.ints.specs.Table.{◌at◌};
ghost use Rattle.hour.specs.Hour.{withdraws};
ghost use Rattle.hour.specs.InsideParts.{sign, weight_in};
ghost use Rattle.hour.specs.InsideTested.{RowTested, TransactionTested};
ghost use Rattle.hour.specs.Surplus.{is_share, share_kw};
ghost use Rattle.hour_weights.specs.Inside.{Table};
ghost use Rattle.hour.specs.declared.Edition.TheVariants as Edition;
ghost use Rattle.hour_totals.specs.Inside.{part_in, transaction_added};
ghost use Rattle.hour.specs.InsideTotals.{shares_most, rows_most, hour_most};

use hour::{EXPORT, Edition, LOAD, REAL_TIME, Row, Transaction};
use units::{Kw, Mills, NetKw, Twelfths};

// ---- what a row, and a transaction, adds

// A row's kW: withdrawals (even kinds) are charged, injections (odd kinds) reimbursed. The sign is on the kW and not on what they come to, so that the compiler can share
// it between the two price lists.
fn net_kw(kind: u8, kw: Kw) -> NetKw
    requires { kind < 6 }
    ensures { result.0 ≡ sign (withdraws kind) *ℤ pos kw.0 }
{
    if kind % 2 == 0 {
        units::withdrawn(kw)
    } else {
        units::injected(kw)
    }
}

// kW on a path, at the weight of its sink less that of its source.
fn path_part(kw: Kw, sink: Mills, source: Mills) -> Twelfths
    requires { (kw.0 ≤ 20000000) × Within sink.0 120000000 × Within source.0 120000000 }
    ensures { result.0 ≡ pos kw.0 *ℤ (sink.0 -ℤ source.0) }
{
    units::charge_of(units::withdrawn(kw), units::rise(sink, source))
}

// ---- totals

// An amount, added to a participant's total.
fn add_amount(totals: &mut [i64], p: usize, amount: Twelfths)
    requires { (p < length totals.old) × SFits w64 (totals.old at p +ℤ amount.0) }
    ensures { totals.new ≡ set totals.old p (totals.old at p +ℤ amount.0) }
{
    totals[p] += amount.0;
}

// A row's part, added to its participant's total.
pub fn add_row(row: Row, locations: usize, table: &[i32], totals: &mut [i64])
    requires { RowTested (length totals.old) locations row × Table locations table.now × InRange totals.old rows_most }
    ensures { totals.new ≡ set totals.old row.participant (totals.old at row.participant +ℤ part_in table.now locations row) }
{
    let weight = hour_weights::weight_of(locations, table, row.market, row.interval, row.location);
    let amount = units::charge_of(net_kw(row.kind, row.kw), weight);
    add_amount(totals, row.participant as usize, amount);
}

// What the path of a transaction costs, added to its participant's total.
fn add_path(transaction: Transaction, locations: usize, table: &[i32], totals: &mut [i64])
    requires { TransactionTested (length totals.old) locations transaction × Table locations table.now × InRange totals.old hour_most }
    ensures { totals.new ≡ transaction_added Edition.PathOnly (weight_in table.now locations) transaction totals.old }
{
    let sink = hour_weights::weight_of(
        locations,
        table,
        transaction.market,
        transaction.interval,
        transaction.sink,
    );
    let source = hour_weights::weight_of(
        locations,
        table,
        transaction.market,
        transaction.interval,
        transaction.source,
    );
    let amount = path_part(transaction.kw, sink, source);
    add_amount(totals, transaction.participant as usize, amount);
}

// The same with a seller, path and legs together. At the sink the participant pays for the path what it is paid for the purchase, so that the source alone is weighed: the
// participant is reimbursed there what the seller is charged.
fn add_sale(transaction: Transaction, locations: usize, table: &[i32], totals: &mut [i64])
    requires { TransactionTested (length totals.old) locations transaction × Table locations table.now × InRange totals.old hour_most }
    ensures { totals.new ≡ transaction_added Edition.WithSeller (weight_in table.now locations) transaction totals.old }
{
    let weight = hour_weights::weight_of(
        locations,
        table,
        transaction.market,
        transaction.interval,
        transaction.source,
    );
    let amount = units::charge_of(units::withdrawn(transaction.kw), weight);
    add_amount(
        totals,
        transaction.participant as usize,
        units::reimbursed(amount),
    );
    add_amount(totals, transaction.seller as usize, amount);
}

// A transaction's parts, added to the totals of those who have a part in it.
pub fn add_transaction(
    edition: Edition,
    transaction: Transaction,
    locations: usize,
    table: &[i32],
    totals: &mut [i64],
)
    requires { TransactionTested (length totals.old) locations transaction × Table locations table.now × InRange totals.old hour_most }
    ensures { totals.new ≡ transaction_added edition (weight_in table.now locations) transaction totals.old }
{
    match edition {
        Edition::PathOnly => add_path(transaction, locations, table, totals),
        Edition::WithSeller => add_sale(transaction, locations, table, totals),
    }
}

// ---- shares

// Whether a row of the market and kind counts as a share.
fn is_share(market: u8, kind: u8) -> bool
    ensures { result ≡ is_share market kind }
{
    if market == REAL_TIME {
        kind == LOAD || kind == EXPORT
    } else {
        false
    }
}

// The kW that a row counts as a share.
fn share_kw(row: Row) -> Kw
    ensures { pos result.0 ≡ share_kw row }
{
    if is_share(row.market, row.kind) {
        return row.kw;
    }
    Kw(0)
}

// kW, added to a participant's share.
fn add_kw(shares: &mut [i64], p: usize, kw: Kw)
    requires { (p < length shares.old) × SFits w64 (shares.old at p +ℤ pos kw.0) }
    ensures { shares.new ≡ set shares.old p (shares.old at p +ℤ pos kw.0) }
{
    shares[p] += kw.0 as i64;
}

// A row's kW, added to its participant's share where they count.
pub fn add_share(row: Row, shares: &mut [i64])
    requires { (row.participant < length shares.old) × (row.kw.0 ≤ 20000000) × InRange shares.old shares_most }
    ensures { shares.new ≡ set shares.old row.participant (shares.old at row.participant +ℤ share_kw row) }
{
    add_kw(shares, row.participant as usize, share_kw(row));
}
