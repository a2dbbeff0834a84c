// A number by its size and its sign; numbers in a range; lists summed, cleared and copied.
#![tactic(auto)]

ghost use Rattle.std.specs.Prelude.{◌≡◌, ◌&&◌, ◌≤◌, ◌<◌, pos, nat_abs, length};
ghost use Rattle.ints.specs.Number.{below0, signed, between};
ghost use Rattle.ints.specs.InsideRange.{Short};
ghost use Rattle.ints.specs.Sum.{sum as Sum·sum};
ghost use Rattle.ints.specs.Table.{◌at◌, tab, all};

// The size of a number, of the least one too.
pub fn size(x: i64) -> u64
    ensures { result ≡ nat_abs x }
{
    x.unsigned_abs()
}

// Whether a number is below 0.
pub fn negative(x: i64) -> bool
    ensures { result ≡ below0 x }
{
    x < 0
}

// The number of a sign and a size.
pub fn with_sign(neg: bool, n: u64) -> i64
    requires { n < 9223372036854775808 }
    ensures { result ≡ signed neg n }
{
    if neg { -(n as i64) } else { n as i64 }
}

// Whether a number is low to high.
pub fn is_between(x: i64, low: i64, high: i64) -> bool
    ensures { result ≡ between low high x }
{
    low <= x && x <= high
}

// Whether both hold. Both are known by then, so that tests that are joined by it are made without a branch.
pub fn both(a: bool, b: bool) -> bool
    ensures { result ≡ (a && b) }
{
    a && b
}

// Whether all numbers of a list are low to high. It goes to the list's end in any case, so that numbers are tested several at a time.
pub fn all_between(list: &[i64], low: i64, high: i64) -> bool
    ensures { result ≡ all (between low high) list.now }
{
    let mut passed = true;
    for x in list {
        passed = both(passed, is_between(*x, low, high));
    }
    passed
}

// The sum of a list.
pub fn sum(list: &[i64]) -> i64
    requires { Short list.now }
    ensures { result ≡ Sum·sum list.now }
{
    let mut total: i64 = 0;
    for x in list {
        total += *x;
    }
    total
}

// Zeros throughout a list.
pub fn clear(list: &mut [i64])
    ensures { list.new ≡ tab (λ _. pos 0) (length list.old) }
{
    list.fill(0);
}

// A list's front, copied into another list; the contract says of a copy what a table says.
pub fn copy(from: &[i64], to: &mut [i64])
    requires { length to.old ≤ length from.now }
    ensures { to.new ≡ tab (λ i. from.now at i) (length to.old) }
{
    to.copy_from_slice(&from[..to.len()]);
}
