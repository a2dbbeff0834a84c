// From exact charges in twelfths to billed cents (document 01, "Charges" and "Surplus and credits").
#![tactic(auto)]

ghost use Rattle.std.specs.Prelude.{◌≡◌, eqb, length, ◌+ℤ◌, ◌-ℤ◌};
ghost use Rattle.ints.specs.InsideRange.{Within, InRange};
ghost use Rattle.ints.specs.Refusal.{lent, pick};
ghost use Rattle.ints.specs.Sum.{sum};
ghost use Rattle.refusals.specs.Number.{number, answer};
ghost use Rattle.split.specs.Split.{parts};
ghost use Rattle.hour_credits.specs.Inside.{Lists};
ghost use Rattle.hour.specs.InsideTotals.{most_cents, rounded, netted};
ghost use Rattle.hour.specs.Order.{surplus_refusal};

use refusals::Refusal;
use units::{Cents, Twelfths};

// Every number of a list rounded, from twelfths to cents.
pub fn round(list: &mut [i64])
    ensures list_after { list.new ≡ rounded list.old }
    ensures in_range { InRange list.new most_cents }
{
    for amount in list.iter_mut() {
        *amount = units::to_cents(Twelfths(*amount)).0;
    }
}

// The charges less the credit.
fn net_of(congestion: Cents, loss: Cents, credit: Cents) -> Cents
    requires { Within congestion.0 most_cents × Within loss.0 most_cents × Within credit.0 most_cents }
    ensures { result.0 ≡ congestion.0 +ℤ loss.0 -ℤ credit.0 }
{
    Cents(congestion.0 + loss.0 - credit.0)
}

// Each participant's net.
fn write_nets(congestion_charges: &[i64], loss_charges: &[i64], credit: &[i64], net: &mut [i64])
    requires loss_charges_len { (length loss_charges.now ≡ length congestion_charges.now) × (length credit.now ≡ length congestion_charges.now) × (length net.old ≡ length congestion_charges.now) }
    requires in_range { InRange congestion_charges.now most_cents × InRange loss_charges.now most_cents × InRange credit.now most_cents }
    ensures { net.new ≡ netted congestion_charges.now loss_charges.now credit.now }
{
    for (i, cents) in net.iter_mut().enumerate() {
        *cents = net_of(
            Cents(congestion_charges[i]),
            Cents(loss_charges[i]),
            Cents(credit[i]),
        )
        .0;
    }
}

// What a split of the surplus is refused for: a number beyond the split's ranges is a surplus or a share beyond its own.
fn of_surplus(refusal: Refusal) -> Result<(), Refusal>
    ensures { answer result ≡ pick (eqb (number refusal) 2) 10 (number refusal) }
{
    match refusal {
        Refusal::Range => Err(Refusal::Surplus),
        other => Err(other),
    }
}

// An hour's congestion and loss charges, in cents, billed: the surplus split over the shares, where the credits come in their place, and each participant's net.
pub fn bill(
    congestion: &[i64],
    loss: &[i64],
    credit: &mut [i64],
    net: &mut [i64],
) -> Result<(), Refusal>
    requires { Lists congestion.now loss.now credit.old net.old }
    ensures value { answer result ≡ surplus_refusal (sum loss.now) credit.old }
    ensures credit_after { credit.new ≡ lent (answer result) (parts (sum loss.now) credit.old) credit.old }
    ensures net_after { net.new ≡ lent (answer result) (netted congestion.now loss.now (parts (sum loss.now) credit.old)) net.old }
{
    let surplus = ints::sum(loss);
    if let Err(refusal) = split_amount::split_in_place(surplus, credit) {
        return of_surplus(refusal);
    }
    write_nets(congestion, loss, credit, net);
    Ok(())
}
