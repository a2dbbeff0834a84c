// The units left, one each to the parties with the largest keys (document 01, "The split").
// A key is a remainder and its party's place in one number, below 2^44, and no two are equal. Whoever's key is above a floor gets a unit: the floor is moved from key to key until as many are above it as units are left.
#![tactic(auto)]

ghost use Rattle.std.specs.Prelude.{◌≡◌, ◌+◌, ◌-◌, ◌*◌, ◌/◌, ◌<◌, ◌≤◌, min, ◌&&◌, length, pos, nat_le, nat_lt, slice_index, unsigned_abs};
ghost use Rattle.ints.specs.Number.{signed};
ghost use Rattle.ints.specs.Sum.{one};
ghost use Rattle.ints.specs.Table.{tab};
ghost use Rattle.split.specs.Split.{share};
ghost use Rattle.split.specs.Inside.{Shares};
ghost use Rattle.split_units.specs.Inside.{keys_above, back as Inside·back, distance as Inside·distance, least, by_fours, apart, Keys, Counted, Floor};

// ---- How many keys are above a floor.

// How far b is back from a, wrapped at 2^64: where b is above a, that is more than for any b up to a.
fn back(a: u64, b: u64) -> u64
    ensures { result ≡ Inside·back a b }
{
    std::num::wrapping_sub_u64(a, b)
}

// 1 where the key is above the floor, else 0: the top bit of their difference, wrapped, since both are far below 2^63.
fn is_above(key: u64, floor: u64) -> u64
    requires { (key < 17592186044416) × (floor < 17592186044416) }
    ensures { result ≡ one (nat_lt floor key) }
{
    back(floor, key) / 9223372036854775808
}

// How many of the first n keys are above the floor.
fn keys_above(keys: &[u64; 64], n: usize, floor: u64) -> u64
    requires { Keys keys.now n × (floor < 17592186044416) }
    ensures { result ≡ keys_above keys.now n floor }
{
    let mut count: u64 = 0;
    for key in &keys[..n] {
        count += is_above(*key, floor);
    }
    count
}

// A floor, and how many keys are above it.
#[derive(Clone, Copy)]
pub struct Level {
    pub floor: u64,
    pub count: u64,
}

// A floor with the keys above it counted. All 64 places are lent with n beside them, since `nearest` reads the zeros behind the last key.
fn level_at(keys: &[u64; 64], n: usize, floor: u64) -> Level
    requires { Keys keys.now n × (floor < 17592186044416) }
    ensures { Counted keys.now n result }
{
    Level {
        floor,
        count: keys_above(keys, n, floor),
    }
}

// ---- The floor moved to the next key.

// The smallest of four.
fn smallest(a: u64, b: u64, c: u64, d: u64) -> u64
    ensures { result ≡ min (min a b) (min c d) }
{
    a.min(b).min(c.min(d))
}

// How far a key lies above the floor, or below it where the floor goes down.
fn distance(up: bool, floor: u64, key: u64) -> u64
    requires { floor < 17592186044416 }
    ensures { result ≡ Inside·distance up floor key }
{
    if up {
        return back(key, floor + 1);
    }
    back(floor, key)
}

// The least distance so far, or that of a key.
fn closer(least: u64, up: bool, floor: u64, key: u64) -> u64
    requires { floor < 17592186044416 }
    ensures { result ≡ min least (Inside·distance up floor key) }
{
    least.min(distance(up, floor, key))
}

// The least distance of a key. Four at a time, so that none waits for the one before it; it reads up to three behind the last key, zeros, which are never the nearest.
fn nearest(keys: &[u64; 64], n: usize, up: bool, floor: u64) -> u64
    requires { (n ≤ 64) × (floor < 17592186044416) }
    ensures { result ≡ least (λ i. Inside·distance up floor (slice_index keys.now i)) (by_fours n) }
{
    let mut a: u64 = 18446744073709551615;
    let mut b: u64 = 18446744073709551615;
    let mut c: u64 = 18446744073709551615;
    let mut d: u64 = 18446744073709551615;
    let mut j: usize = 0;
    while j < n {
        a = closer(a, up, floor, keys[j]);
        b = closer(b, up, floor, keys[j + 1]);
        c = closer(c, up, floor, keys[j + 2]);
        d = closer(d, up, floor, keys[j + 3]);
        j += 4;
    }
    smallest(a, b, c, d)
}

// The floor moved by one key: up to the smallest above it where too many are above, down past the largest that is not above it where too few are.
fn nearer(keys: &[u64; 64], n: usize, units: u64, at: Level) -> Level
    requires { Keys keys.now n × Counted keys.now n at × (units ≤ n) }
    ensures counted { Counted keys.now n result }
    ensures units_value { apart result.count units ≡ apart at.count units - 1 }
{
    if at.count == units {
        return at;
    }
    let up = units < at.count;
    let step = nearest(keys, n, up, at.floor);
    if up {
        return Level {
            floor: at.floor + 1 + step,
            count: at.count - 1,
        };
    }
    Level {
        floor: at.floor - step - 1,
        count: at.count + 1,
    }
}

// ---- Where the floor is looked for first. Any floor will do; a good one is few keys off.

// Whether two counts are at most 6 apart.
fn is_near(a: u64, b: u64) -> bool
    requires { (a ≤ 64) × (b ≤ 64) }
    ensures { result ≡ nat_le a (b + 6) && nat_le b (a + 6) }
{
    a <= b + 6 && b <= a + 6
}

// From low on, as much of the way to high as the part is of the whole.
fn on_the_way(low: u64, high: u64, part: u64, whole: u64) -> u64
    requires low_le_high { (low ≤ high) × (high < 17592186044416) }
    requires part_le_whole { (part ≤ whole) × (0 < whole) × (whole ≤ 64) }
    ensures { (result ≡ low + (high - low) * part / whole) × (result ≤ high) }
{
    low + (high - low) * part / whole
}

// Between two floors, one with too many keys above it and one with too few: between the smallest and the largest key there, as far along as the units lie between the two counts.
fn between(keys: &[u64; 64], n: usize, units: u64, low: Level, high: Level) -> Level
    requires { Keys keys.now n × Counted keys.now n low × Counted keys.now n high × (units ≤ n) }
    ensures { Counted keys.now n result }
{
    let first = nearer(keys, n, units, low);
    let last = nearer(keys, n, units, high);
    if first.count <= units {
        return first;
    }
    if units <= last.count {
        return last;
    }
    let floor = on_the_way(
        first.floor,
        last.floor,
        first.count - units,
        first.count - last.count,
    );
    level_at(keys, n, floor)
}

// A floor to begin with. Half the total, since remainders are mostly spread evenly from 0 to the total; where that is far off, the mean remainder, with a place such that of equal remainders as many are above it as units are left; where that is far off, too, a floor between it and the end: no key is above 2^44 - 1, and all are above 0.
fn start_at(keys: &[u64; 64], n: usize, units: u64, total: u64) -> Level
    requires { Keys keys.now n × (units ≤ n) × (0 < n) × (total ≤ 256000000000) }
    ensures { Counted keys.now n result }
{
    let half = level_at(keys, n, 32 * total);
    if is_near(half.count, units) {
        return half;
    }
    let rest = on_the_way(0, total, units, n as u64);
    let mean = level_at(keys, n, 64 * rest + (64 - units));
    if is_near(mean.count, units) {
        return mean;
    }
    if units < mean.count {
        return between(
            keys,
            n,
            units,
            mean,
            Level {
                floor: 17592186044415,
                count: 0,
            },
        );
    }
    between(
        keys,
        n,
        units,
        Level {
            floor: 0,
            count: n as u64,
        },
        mean,
    )
}

// ---- The units.

// The floor that as many keys are above as units are left.
fn floor_of(keys: &[u64; 64], n: usize, units: u64, total: u64) -> u64
    requires { Keys keys.now n × (units ≤ n) × (0 < n) × (total ≤ 256000000000) }
    ensures { Floor keys.now n units result }
{
    let mut at = start_at(keys, n, units, total);
    while at.count != units {
        at = nearer(keys, n, units, at);
    }
    at.floor
}

// What was cut down with a unit or none, and the sign.
fn with_unit(neg: bool, cut: i64, unit: u64) -> i64
    requires { (cut ≡ pos (unsigned_abs cut)) × (unsigned_abs cut ≤ 4000000000) × (unit ≤ 1) }
    ensures { result ≡ signed neg (unsigned_abs cut + unit) }
{
    ints::with_sign(neg, cut as u64 + unit)
}

// The parts with the sign: what was cut down, and a unit where the key is above the floor.
fn put_parts(neg: bool, keys: &[u64; 64], floor: u64, parts: &mut [i64])
    requires { Shares parts.old × Keys keys.now (length parts.old) × (floor < 17592186044416) }
    ensures { parts.new ≡ tab (λ i. signed neg (share parts.old i + one (nat_lt floor (slice_index keys.now i)))) (length parts.old) }
{
    for (i, part) in parts.iter_mut().enumerate() {
        *part = with_unit(neg, *part, is_above(keys[i], floor));
    }
}

// The parts with the sign: what was cut down, and a unit where fewer keys than units are above the party's. The total of shares, which remainders are below, only says where to look first.
pub fn give_units(neg: bool, units: u64, total: u64, keys: &[u64; 64], parts: &mut [i64])
    requires shares { Shares parts.old × Keys keys.now (length parts.old) }
    requires units_in_bounds { (units ≤ length parts.old) × (0 < length parts.old) × (total ≤ 256000000000) }
    ensures { parts.new ≡ tab (λ i. signed neg (share parts.old i + one (nat_lt (keys_above keys.now (length parts.old) (slice_index keys.now i)) units))) (length parts.old) }
{
    let floor = floor_of(keys, parts.len(), units, total);
    put_parts(neg, keys, floor, parts);
}
