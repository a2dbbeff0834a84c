// The prices of the exercise file (document 01, "The exercise file"): read and tested.
#![tactic(auto)]

ghost use Rattle.std.specs.Prelude.{◌≡◌, ◌+◌, ◌*◌, ◌≤◌, ◌<◌, length};
ghost use Rattle.ints.specs.InsideRange.{Within};
ghost use Rattle.ints.specs.Twos.{twos};
ghost use Rattle.refusals.specs.Number.{answer};
ghost use Rattle.exercise.specs.File.{price_at, prices_from};
ghost use Rattle.exercise.specs.Inside.{prices_in_refusal, prices_from_refusal};

use refusals::Refusal;
use units::Mills;

// The number of 24 bits: moved up by half of their patterns, they are in the numbers' order.
fn from_bits(u: u64) -> i64
    requires { u < 16777216 }
    ensures { (result ≡ twos 24 u) × Within result 8388608 }
{
    ((u + 8388608) % 16777216) as i64 - 8388608
}

// Price j of a stretch of prices.
pub fn price_at(prices: &[u8], j: usize) -> Mills
    requires { 3 * j + 3 ≤ length prices.now }
    ensures { result.0 ≡ price_at prices.now j }
{
    Mills(from_bits(exercise_rows::bytes_at::<3>(prices, 3 * j)))
}

// A price list, read from price j of a stretch on. It goes to the list's end in any case, and a price that is refused is read, too.
pub fn read_list(prices: &[u8], j: usize, list: &mut [i32]) -> Result<(), Refusal>
    requires { 3 * (j + length list.old) ≤ length prices.now }
    ensures value { answer result ≡ prices_from_refusal prices.now j (length list.old) }
    ensures list_after { list.new ≡ prices_from prices.now j (length list.old) }
{
    let mut passed = true;
    for (i, entry) in list.iter_mut().enumerate() {
        let price = from_bits(exercise_rows::bytes_at::<3>(prices, 3 * (j + i)));
        *entry = price as i32;
        passed = ints::both(passed, ints::is_between(price, -5_000_000, 5_000_000));
    }
    if !passed {
        return Err(Refusal::Range);
    }
    Ok(())
}

// What is refused of the first n prices of a stretch.
pub fn prices_refusal(prices: &[u8], n: usize) -> Result<(), Refusal>
    requires { 3 * n ≤ length prices.now }
    ensures { answer result ≡ prices_in_refusal prices.now n }
{
    for j in 0..n {
        hour_row_refusals::price_refusal(price_at(prices, j).0)?;
    }
    Ok(())
}
