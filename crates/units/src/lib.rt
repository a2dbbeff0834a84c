// Document 01: "Kilowatts, mills and cents are never added to one another". A struct for each unit, and the only
// functions in which one becomes another.
#![tactic(auto)]

ghost use Rattle.std.specs.Prelude.{◌≡◌, pos, neg_ℤ, ◌-ℤ◌};
ghost use Rattle.ints.specs.InsideRange.{Within};
ghost use Rattle.units.specs.Units.{cents_of};
ghost use Rattle.units.specs.Inside.{charge_of, whole_hour};

// Kilowatts. That they are 0 to 20,000,000 is tested where they are read.
#[derive(Clone, Copy)]
pub struct Kw(pub u32);

// Kilowatts withdrawn less kilowatts injected: above 0 they are charged, below 0 reimbursed. That they are within 20,000,000 is asked for by `charge_of`.
#[derive(Clone, Copy)]
pub struct NetKw(pub i64);

// Mills (0.001 dollar) per MWh: a price, or a weight made of prices.
#[derive(Clone, Copy)]
pub struct Mills(pub i64);

// Twelfths of a millionth of a dollar: a charge, exactly.
#[derive(Clone, Copy)]
pub struct Twelfths(pub i64);

// Cents: a charge as it is billed.
#[derive(Clone, Copy)]
pub struct Cents(pub i64);

// What is withdrawn.
pub fn withdrawn(kw: Kw) -> NetKw
    ensures { result.0 ≡ pos kw.0 }
{
    NetKw(i64::from(kw.0))
}

// What is injected.
pub fn injected(kw: Kw) -> NetKw
    ensures { result.0 ≡ neg_ℤ (pos kw.0) }
{
    NetKw(ints::with_sign(true, u64::from(kw.0)))
}

// The charge of kW at a price, for one interval, or at a weight. A weight is at most that of a path: 24 prices at each of its two ends.
pub fn charge_of(kw: NetKw, price: Mills) -> Twelfths
    requires { Within kw.0 20000000 × Within price.0 240000000 }
    ensures { result.0 ≡ charge_of kw.0 price.0 }
{
    Twelfths(kw.0 * price.0)
}

// The weight of a price that holds for the whole hour.
pub fn whole_hour(price: Mills) -> Mills
    requires { Within price.0 5000000 }
    ensures { result.0 ≡ whole_hour price.0 }
{
    Mills(12 * price.0)
}

// The weight at a path's sink less that at its source.
pub fn rise(sink: Mills, source: Mills) -> Mills
    requires { Within sink.0 120000000 × Within source.0 120000000 }
    ensures { result.0 ≡ sink.0 -ℤ source.0 }
{
    Mills(sink.0 - source.0)
}

// A charge that is reimbursed.
pub fn reimbursed(amount: Twelfths) -> Twelfths
    requires { Within amount.0 4800000000000000 }
    ensures { result.0 ≡ neg_ℤ amount.0 }
{
    Twelfths(-amount.0)
}

// The nearest cent, halves away from zero.
pub fn to_cents(amount: Twelfths) -> Cents
    ensures { result.0 ≡ cents_of amount.0 }
{
    let x = amount.0;
    let cents = (ints::size(x) + 60_000) / 120_000;
    Cents(ints::with_sign(ints::negative(x), cents))
}
