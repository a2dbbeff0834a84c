// The parts of a size by largest remainders (document 01, "The split").
#![tactic(auto)]

ghost use Rattle.std.specs.Prelude.{◌≡◌, ◌*◌, ◌/◌, ◌%◌, ◌≤◌, ◌<◌, pos, length};
ghost use Rattle.ints.specs.Number.{signed};
ghost use Rattle.ints.specs.Table.{tab};
ghost use Rattle.split.specs.Split.{share, total, cut_down, remainder, units_left, part};
ghost use Rattle.split.specs.Inside.{Shares};
ghost use Rattle.split_parts.specs.Inside.{SizeGiven, Keyed};

// The total of the shares.
pub fn total_of(shares: &[i64]) -> u64
    requires { Shares shares.now }
    ensures { result ≡ total shares.now }
{
    let mut sum: u64 = 0;
    for share in shares {
        sum += *share as u64;
    }
    sum
}

// What a share gets of a size, cut down, and the remainder of that.
#[derive(Clone, Copy)]
pub struct Cut {
    pub whole: u64,
    pub rest: u64,
}

// The size times the share divided by the total, from the ratio of size to total in 2^34ths, cut down. What is cut off comes to less than 1 for a share of at most 2^34, so that this gives the quotient or one less; where it is one less, it is mended.
fn cut_down(size: u64, share: u64, total: u64, ratio: u64) -> Cut
    requires size_bound { (size ≤ 1000000000) × (share ≤ 4000000000) × (share ≤ total) × (0 < total) }
    requires ratio_value { ratio ≡ size * 17179869184 / total }
    ensures { (result.whole ≡ size * share / total) × (result.rest ≡ size * share % total) }
{
    let low = ratio * share / 17179869184;
    let over = size * share - low * total;
    if over < total {
        return Cut {
            whole: low,
            rest: over,
        };
    }
    Cut {
        whole: low + 1,
        rest: over - total,
    }
}

// Divides the size. In the place of each share comes what its party gets cut down, and beside it the party's key; the answer is the units left.
fn divide(size: u64, total: u64, parts: &mut [i64], keys: &mut [u64]) -> u64
    requires { SizeGiven size parts.old total × (0 < total) × (length keys.old ≡ 64) }
    ensures value { result ≡ units_left size parts.old }
    ensures parts_after { parts.new ≡ tab (λ i. pos (cut_down size parts.old i)) (length parts.old) }
    ensures keyed { Keyed (remainder size parts.old) (length parts.old) keys.old keys.new }
{
    let ratio = size * 17179869184 / total;
    let mut left = size;
    for (i, part) in parts.iter_mut().enumerate() {
        let cut = cut_down(size, *part as u64, total, ratio);
        *part = cut.whole as i64;
        keys[i] = 64 * cut.rest + (64 - i as u64);
        left -= cut.whole;
    }
    left
}

// The parts of a size, with the sign, in the place of the shares. Besides these it keeps one list, the keys.
pub fn fill_in_place(neg: bool, size: u64, total: u64, parts: &mut [i64])
    requires { SizeGiven size parts.old total }
    ensures { parts.new ≡ tab (λ i. signed neg (part size parts.old i)) (length parts.old) }
{
    if size == 0 {
        ints::clear(parts);
        return;
    }
    let mut keys = [0u64; 64];
    let units = divide(size, total, parts, &mut keys);
    split_units::give_units(neg, units, total, &keys, parts);
}

// The parts of a size, with the sign.
pub fn fill(neg: bool, size: u64, shares: &[i64], total: u64, parts: &mut [i64])
    requires size_given { SizeGiven size shares.now total }
    requires parts_len { length parts.old ≡ length shares.now }
    ensures { parts.new ≡ tab (λ i. signed neg (part size shares.now i)) (length shares.now) }
{
    parts.copy_from_slice(shares);
    fill_in_place(neg, size, total, parts);
}
