// Why an exercise file is refused: all of the order for an hour, surplus and shares too.
#![tactic(auto)]

ghost use Rattle.std.specs.Prelude.{◌≡◌, ◌≤◌, length};
ghost use Rattle.ints.specs.Sum.{sum};
ghost use Rattle.hour.specs.Cause.{surplus_cause, credits_cause};
ghost use Rattle.hour.specs.InsideTotals.{rounded};
ghost use Rattle.hour.specs.Order.{content_refusal};
ghost use Rattle.hour.specs.InsideTold.{told};
ghost use Rattle.exercise.specs.Cause.{hour_cause};
ghost use Rattle.exercise.specs.File.{hour_of};
ghost use Rattle.exercise.specs.Order.{frame_refusal, spare_of};
ghost use Rattle.hour_find.specs.Inside.{Empty};

use hour::Cause;

// The cause by exact loss charges and shares.
fn rounded_cause(exact_loss: &mut [i64], shares: &[i64]) -> Result<(), Cause>
    requires { (length exact_loss.old ≤ 64) × (length shares.now ≤ 64) }
    ensures { told result ≡ surplus_cause (sum (rounded exact_loss.old)) shares.now }
{
    hour_credits::round(exact_loss);
    hour_cause::surplus_cause(ints::sum(exact_loss), shares)
}

// The cause by the surplus and the shares of a file that passes the order to its last transaction, which are added up in lists of zeros as long as the participants.
fn charged_cause(
    file: &[u8],
    exact_congestion: &mut [i64],
    exact_loss: &mut [i64],
    shares: &mut [i64],
) -> Result<(), Cause>
    requires file_value { frame_refusal file.now ≡ 0 }
    requires file_value_2 { content_refusal (hour_of file.now) (spare_of file.now) ≡ 0 }
    requires empty { Empty (hour_of file.now).participants exact_congestion.old × Empty (hour_of file.now).participants exact_loss.old × Empty (hour_of file.now).participants shares.old }
    ensures { told result ≡ credits_cause (hour_of file.now) }
{
    // It isn't refused: the file has passed.
    let _ = hour_charge::charge_hour(file, exact_congestion, exact_loss, shares);
    rounded_cause(exact_loss, shares)
}

// The same with lists of its own.
fn credits_cause(file: &[u8]) -> Result<(), Cause>
    requires file_value { frame_refusal file.now ≡ 0 }
    requires file_value_2 { content_refusal (hour_of file.now) (spare_of file.now) ≡ 0 }
    ensures { told result ≡ credits_cause (hour_of file.now) }
{
    let mut exact_congestion = [0i64; 64];
    let mut exact_loss = [0i64; 64];
    let mut shares = [0i64; 64];
    let n = exercise_file::read_header(file).participants;
    charged_cause(
        file,
        &mut exact_congestion[..n],
        &mut exact_loss[..n],
        &mut shares[..n],
    )
}

// Why a file is refused, by all of the order.
#[tactic(auto, using(hour::proofs::Told::tests), unfolding(exercise::specs::Cause::hour_cause))]
pub fn find_cause(file: &[u8]) -> Result<(), Cause>
    ensures { told result ≡ hour_cause file.now }
{
    exercise_cause::frame_cause(file)?;
    exercise_cause::content_cause(file)?;
    credits_cause(file)
}
