// The lines of a statement, written into a page: each participant's, the last one, and a refusal's.
#![tactic(auto)]

ghost use Rattle.std.specs.Prelude.{◌+◌, ◌*◌, ◌≤◌, ◌<◌, length};
ghost use Rattle.text.specs.Inside.{Written};
ghost use Rattle.statement.specs.Inside.{Printable};
ghost use Rattle.statement.specs.Statement.{joined, amount_field, amount_fields, line, last_line, lines, refused_line};

use units::Cents;

// What each participant of an hour is billed, in cents: a list each of congestion charges, loss charges, credits and nets.
#[derive(Clone, Copy)]
pub struct Bills<'a> {
    pub congestion: &'a [i64],
    pub loss: &'a [i64],
    pub credit: &'a [i64],
    pub net: &'a [i64],
}

// An amount, after a space.
fn put_amount(page: &mut [u8], at: usize, amount: Cents) -> usize
    requires { at + 21 ≤ length page.old }
    ensures written { Written page.old at (amount_field amount.0) page.new result }
    ensures upper_bound { result ≤ at + 21 }
{
    let start = text::put_byte(page, at, b' ');
    text::put_decimal(page, start, amount.0)
}

// The four amounts of a line, and its end.
fn put_amounts(
    page: &mut [u8],
    at: usize,
    congestion: Cents,
    loss: Cents,
    credit: Cents,
    net: Cents,
) -> usize
    requires { at + 85 ≤ length page.old }
    ensures written { Written page.old at (amount_fields congestion.0 loss.0 credit.0 net.0) page.new result }
    ensures upper_bound { result ≤ at + 85 }
{
    let a = put_amount(page, at, congestion);
    let b = put_amount(page, a, loss);
    let c = put_amount(page, b, credit);
    let d = put_amount(page, c, net);
    text::put_byte(page, d, b'\n')
}

// The line of a participant.
fn put_line(page: &mut [u8], at: usize, p: usize, bills: Bills) -> usize
    requires p_bound { (p < 64) × (at + 105 ≤ length page.old) }
    requires p_in_bounds { (p < length bills.congestion.now) × (p < length bills.loss.now) × (p < length bills.credit.now) × (p < length bills.net.now) }
    ensures written { Written page.old at (line bills.entry.congestion.now bills.entry.loss.now bills.entry.credit.now bills.entry.net.now p) page.new result }
    ensures upper_bound { result ≤ at + 105 }
{
    let start = text::put_decimal(page, at, p as i64);
    put_amounts(
        page,
        start,
        Cents(bills.congestion[p]),
        Cents(bills.loss[p]),
        Cents(bills.credit[p]),
        Cents(bills.net[p]),
    )
}

// The lines of all participants.
fn put_lines(page: &mut [u8], bills: Bills) -> usize
    requires { Printable (length page.old) bills.congestion.now bills.loss.now bills.credit.now bills.net.now }
    ensures written { Written page.old 0 (joined (line bills.entry.congestion.now bills.entry.loss.now bills.entry.credit.now bills.entry.net.now) (length bills.entry.congestion.now)) page.new result }
    ensures upper_bound { result ≤ 105 * length bills.entry.congestion.now }
{
    let mut at: usize = 0;
    for p in 0..bills.congestion.len() {
        at = put_line(page, at, p, bills);
    }
    at
}

// The last line, of the sums.
fn put_last(page: &mut [u8], at: usize, bills: Bills) -> usize
    requires { (at + 90 ≤ length page.old) × Printable (length page.old) bills.congestion.now bills.loss.now bills.credit.now bills.net.now }
    ensures written { Written page.old at (last_line bills.entry.congestion.now bills.entry.loss.now bills.entry.credit.now bills.entry.net.now) page.new result }
    ensures upper_bound { result ≤ at + 90 }
{
    let start = text::put_bytes(page, at, b"total");
    put_amounts(
        page,
        start,
        Cents(ints::sum(bills.congestion)),
        Cents(ints::sum(bills.loss)),
        Cents(ints::sum(bills.credit)),
        Cents(ints::sum(bills.net)),
    )
}

// The lines of all participants, and the last one.
pub fn put_settled(page: &mut [u8], bills: Bills) -> usize
    requires { Printable (length page.old) bills.congestion.now bills.loss.now bills.credit.now bills.net.now }
    ensures written { Written page.old 0 (lines (length bills.entry.congestion.now) bills.entry.congestion.now bills.entry.loss.now bills.entry.credit.now bills.entry.net.now) page.new result }
    ensures upper_bound { result ≤ 6825 }
{
    let at = put_lines(page, bills);
    put_last(page, at, bills)
}

// A refusal.
pub fn put_refused(page: &mut [u8], number: u32) -> usize
    requires { 29 ≤ length page.old }
    ensures written { Written page.old 0 (refused_line number) page.new result }
    ensures upper_bound { result ≤ 29 }
{
    let start = text::put_bytes(page, 0, b"refused ");
    let end = text::put_decimal(page, start, number as i64);
    text::put_byte(page, end, b'\n')
}
