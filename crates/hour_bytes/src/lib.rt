// An hour settled, and its four lists written in bytes, eight a number. They stay four parameters for the reason in `hour_settle`.
#![tactic(auto)]

ghost use Rattle.std.specs.Prelude.{◌≡◌, ◌/◌, ◌≤◌, true, [], ◌∷◌, length};
ghost use Rattle.ints.specs.Refusal.{lent};
ghost use Rattle.refusals.specs.Number.{answer};
ghost use Rattle.numbers.specs.Bytes.{encoded};
ghost use Rattle.exercise.specs.File.{hour_of};
ghost use Rattle.exercise.specs.Order.{in_bytes, hour_refusal};
ghost use Rattle.hour.specs.Charges.{congestion_charges_of, loss_charges_of};
ghost use Rattle.hour.specs.Surplus.{credits, nets};
ghost use Rattle.hour_settle.specs.Inside.{Cleared};
ghost use Rattle.hour_bytes.specs.Inside.{hourly};

use refusals::Refusal;

// How many numbers of an hour a slice of so many bytes can hold.
fn hourly_count(bytes: usize) -> usize
    ensures { (result ≡ hourly bytes) × (result ≤ 64) }
{
    if numbers::is_list(bytes, 64) {
        return bytes / 8;
    }
    0
}

// Whether these are at most 8.
fn holds_few(bytes: usize) -> bool
    ensures { result ≡ true → hourly bytes ≤ 8 }
{
    hourly_count(bytes) <= 8
}

// An hour settled into four lists, and these into slices.
fn settle_into(
    file: &[u8],
    congestion: &mut [u8],
    loss: &mut [u8],
    credit: &mut [u8],
    net: &mut [u8],
    congestion_cents: &mut [i64],
    loss_cents: &mut [i64],
    credit_cents: &mut [i64],
    net_cents: &mut [i64],
) -> Result<(), Refusal>
    requires congestion_cents_len { (length congestion_cents.old ≡ hourly (length congestion.old)) × (length loss_cents.old ≡ hourly (length loss.old)) × (length credit_cents.old ≡ hourly (length credit.old)) × (length net_cents.old ≡ hourly (length net.old)) }
    requires cleared { Cleared congestion_cents.old loss_cents.old credit_cents.old }
    ensures value { answer result ≡ hour_refusal in_bytes file.now (length congestion.old ∷ length loss.old ∷ length credit.old ∷ length net.old ∷ []) }
    ensures congestion_after { congestion.new ≡ lent (answer result) (encoded (congestion_charges_of (hour_of file.now))) congestion.old }
    ensures loss_after { loss.new ≡ lent (answer result) (encoded (loss_charges_of (hour_of file.now))) loss.old }
    ensures credit_after { credit.new ≡ lent (answer result) (encoded (credits (hour_of file.now))) credit.old }
    ensures net_after { net.new ≡ lent (answer result) (encoded (nets (hour_of file.now))) net.old }
{
    hour_settle::settle(file, congestion_cents, loss_cents, credit_cents, net_cents)?;
    numbers::write_all(congestion_cents, congestion);
    numbers::write_all(loss_cents, loss);
    numbers::write_all(credit_cents, credit);
    numbers::write_all(net_cents, net);
    Ok(())
}

// ---- lists of its own

// The same with lists for N participants.
fn settle_sized<const N: usize>(
    file: &[u8],
    congestion: &mut [u8],
    loss: &mut [u8],
    credit: &mut [u8],
    net: &mut [u8],
) -> Result<(), Refusal>
    requires size { N ≤ 64 }
    requires room { (hourly (length congestion.old) ≤ N) × (hourly (length loss.old) ≤ N) × (hourly (length credit.old) ≤ N) × (hourly (length net.old) ≤ N) }
    ensures value { answer result ≡ hour_refusal in_bytes file.now (length congestion.old ∷ length loss.old ∷ length credit.old ∷ length net.old ∷ []) }
    ensures congestion_after { congestion.new ≡ lent (answer result) (encoded (congestion_charges_of (hour_of file.now))) congestion.old }
    ensures loss_after { loss.new ≡ lent (answer result) (encoded (loss_charges_of (hour_of file.now))) loss.old }
    ensures credit_after { credit.new ≡ lent (answer result) (encoded (credits (hour_of file.now))) credit.old }
    ensures net_after { net.new ≡ lent (answer result) (encoded (nets (hour_of file.now))) net.old }
{
    let mut congestion_cents = [0i64; N];
    let mut loss_cents = [0i64; N];
    let mut credit_cents = [0i64; N];
    let mut net_cents = [0i64; N];
    let c = hourly_count(congestion.len());
    let l = hourly_count(loss.len());
    let k = hourly_count(credit.len());
    let n = hourly_count(net.len());
    settle_into(
        file,
        congestion,
        loss,
        credit,
        net,
        &mut congestion_cents[..c],
        &mut loss_cents[..l],
        &mut credit_cents[..k],
        &mut net_cents[..n],
    )
}

// An hour settled into slices. A few participants need not pay for clearing lists of 64.
pub fn settle_bytes(
    file: &[u8],
    congestion: &mut [u8],
    loss: &mut [u8],
    credit: &mut [u8],
    net: &mut [u8],
) -> Result<(), Refusal>
    ensures value { answer result ≡ hour_refusal in_bytes file.now (length congestion.old ∷ length loss.old ∷ length credit.old ∷ length net.old ∷ []) }
    ensures congestion_after { congestion.new ≡ lent (answer result) (encoded (congestion_charges_of (hour_of file.now))) congestion.old }
    ensures loss_after { loss.new ≡ lent (answer result) (encoded (loss_charges_of (hour_of file.now))) loss.old }
    ensures credit_after { credit.new ≡ lent (answer result) (encoded (credits (hour_of file.now))) credit.old }
    ensures net_after { net.new ≡ lent (answer result) (encoded (nets (hour_of file.now))) net.old }
{
    if holds_few(congestion.len())
        && holds_few(loss.len())
        && holds_few(credit.len())
        && holds_few(net.len())
    {
        return settle_sized::<8>(file, congestion, loss, credit, net);
    }
    settle_sized::<64>(file, congestion, loss, credit, net)
}
