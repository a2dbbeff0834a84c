// An amount split over shares: the order of refusals, the amount's sign, and the parts of its size.
#![tactic(auto)]

ghost use Rattle.std.specs.Prelude.{◌≡◌, length, IfOk};
ghost use Rattle.refusals.specs.Number.{answer};
ghost use Rattle.split.specs.Split.{total as Split·total, split_refusal, split_outcome};

use refusals::Refusal;

// An amount and its shares tested, for as many parts: the total of the shares.
#[tactic(auto, unfolding(split::specs::Split::split_refusal))]
fn test(amount: i64, shares: &[i64]) -> Result<u64, Refusal>
    ensures refusal_value { answer result ≡ split_refusal amount shares.now (length shares.now) }
    ensures total_value { IfOk result (λ total. total ≡ Split·total shares.now) }
{
    if shares.is_empty() || 64 < shares.len() {
        return Err(Refusal::Length);
    }
    if !ints::is_between(amount, -1_000_000_000, 1_000_000_000) {
        return Err(Refusal::Range);
    }
    if !ints::all_between(shares, 0, 4_000_000_000) {
        return Err(Refusal::Range);
    }
    let total = split_parts::total_of(shares);
    if total == 0 && amount != 0 {
        return Err(Refusal::NoShares);
    }
    Ok(total)
}

// An amount split over shares.
#[tactic(auto, unfolding(split::specs::Split::split_refusal))]
pub fn split(amount: i64, shares: &[i64], parts: &mut [i64]) -> Result<(), Refusal>
    ensures value { answer result ≡ split_refusal amount shares.now (length parts.old) }
    ensures parts_after { parts.new ≡ split_outcome amount shares.now parts.old }
{
    if parts.len() != shares.len() {
        return Err(Refusal::Length);
    }
    let total = test(amount, shares)?;
    let neg = ints::negative(amount);
    let size = ints::size(amount);
    split_parts::fill(neg, size, shares, total, parts);
    Ok(())
}

// The same where the shares are: the parts come in their place.
pub fn split_in_place(amount: i64, numbers: &mut [i64]) -> Result<(), Refusal>
    ensures value { answer result ≡ split_refusal amount numbers.old (length numbers.old) }
    ensures numbers_after { numbers.new ≡ split_outcome amount numbers.old numbers.old }
{
    let total = test(amount, numbers)?;
    let neg = ints::negative(amount);
    let size = ints::size(amount);
    split_parts::fill_in_place(neg, size, total, numbers);
    Ok(())
}
