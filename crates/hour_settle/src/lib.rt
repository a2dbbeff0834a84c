// Settling an hour: the exact charges of an exercise file, rounded, and the surplus credited.
// The four lists stay four parameters: of a struct of `&mut` a clause would have to say `bills.exit.0.now` for `congestion.new`.
#![tactic(auto)]

ghost use Rattle.std.specs.Prelude.{◌≡◌, [], ◌∷◌, length};
ghost use Rattle.ints.specs.Refusal.{lent};
ghost use Rattle.ints.specs.Sum.{sum};
ghost use Rattle.refusals.specs.Number.{answer};
ghost use Rattle.split.specs.Split.{parts};
ghost use Rattle.exercise.specs.File.{hour_of};
ghost use Rattle.exercise.specs.Order.{frame_refusal, settled_refusal, in_numbers, hour_refusal};
ghost use Rattle.hour.specs.InsideTotals.{rounded, netted};
ghost use Rattle.hour.specs.Order.{surplus_refusal};
ghost use Rattle.hour_settle.specs.Inside.{zeros, Cleared, Bills, Outputs};
ghost use Rattle.hour.specs.Charges.{congestion_charges_of, loss_charges_of};
ghost use Rattle.hour.specs.Surplus.{credits, nets};

use refusals::Refusal;

// Exact charges and shares, rounded and billed where they are. Where they are refused, they are cleared.
fn round_and_bill(
    congestion: &mut [i64],
    loss: &mut [i64],
    credit: &mut [i64],
    net: &mut [i64],
) -> Result<(), Refusal>
    requires { Bills congestion.old loss.old credit.old net.old }
    ensures value { answer result ≡ surplus_refusal (sum (rounded loss.old)) credit.old }
    ensures congestion_after { congestion.new ≡ lent (answer result) (rounded congestion.old) (zeros (length congestion.old)) }
    ensures loss_after { loss.new ≡ lent (answer result) (rounded loss.old) (zeros (length loss.old)) }
    ensures credit_after { credit.new ≡ lent (answer result) (parts (sum (rounded loss.old)) credit.old) (zeros (length credit.old)) }
    ensures net_after { net.new ≡ lent (answer result) (netted (rounded congestion.old) (rounded loss.old) (parts (sum (rounded loss.old)) credit.old)) net.old }
{
    hour_credits::round(congestion);
    hour_credits::round(loss);
    if let Err(refusal) = hour_credits::bill(congestion, loss, credit, net) {
        ints::clear(congestion);
        ints::clear(loss);
        ints::clear(credit);
        return Err(refusal);
    }
    Ok(())
}

// An hour of a file that passes the order to its length, into lists of zeros as long as the participants. Exact charges and shares are added up where the charges and credits come.
fn settle_whole(
    file: &[u8],
    congestion: &mut [i64],
    loss: &mut [i64],
    credit: &mut [i64],
    net: &mut [i64],
) -> Result<(), Refusal>
    requires file_value { frame_refusal file.now ≡ 0 }
    requires outputs { Outputs (hour_of file.now).participants congestion.old loss.old credit.old net.old }
    requires cleared { Cleared congestion.old loss.old credit.old }
    ensures value { answer result ≡ settled_refusal file.now }
    ensures congestion_after { congestion.new ≡ lent (answer result) (congestion_charges_of (hour_of file.now)) congestion.old }
    ensures loss_after { loss.new ≡ lent (answer result) (loss_charges_of (hour_of file.now)) loss.old }
    ensures credit_after { credit.new ≡ lent (answer result) (credits (hour_of file.now)) credit.old }
    ensures net_after { net.new ≡ lent (answer result) (nets (hour_of file.now)) net.old }
{
    hour_charge::charge_hour(file, congestion, loss, credit)?;
    round_and_bill(congestion, loss, credit, net)
}

// An hour of a file, settled into four lists of a number for each participant: congestion charge, loss charge, credit
// and net, in cents. The first three hold zeros when they are lent.
pub fn settle(
    file: &[u8],
    congestion: &mut [i64],
    loss: &mut [i64],
    credit: &mut [i64],
    net: &mut [i64],
) -> Result<(), Refusal>
    requires { Cleared congestion.old loss.old credit.old }
    ensures value { answer result ≡ hour_refusal in_numbers file.now (length congestion.old ∷ length loss.old ∷ length credit.old ∷ length net.old ∷ []) }
    ensures congestion_after { congestion.new ≡ lent (answer result) (congestion_charges_of (hour_of file.now)) congestion.old }
    ensures loss_after { loss.new ≡ lent (answer result) (loss_charges_of (hour_of file.now)) loss.old }
    ensures credit_after { credit.new ≡ lent (answer result) (credits (hour_of file.now)) credit.old }
    ensures net_after { net.new ≡ lent (answer result) (nets (hour_of file.now)) net.old }
{
    exercise_file::frame_refusal(file)?;
    let n = exercise_file::read_header(file).participants;
    if congestion.len() != n {
        return Err(Refusal::Length);
    }
    if loss.len() != n {
        return Err(Refusal::Length);
    }
    if credit.len() != n {
        return Err(Refusal::Length);
    }
    if net.len() != n {
        return Err(Refusal::Length);
    }
    settle_whole(file, congestion, loss, credit, net)
}
