// What a kW counts: day-ahead its weight for the whole hour, in real time the price of its interval. Both stand in one table, which is made of a price list where it is.
#![tactic(auto)]

ghost use Rattle.std.specs.Prelude.{◌≡◌, ◌+◌, ◌*◌, ◌≤◌, ◌<◌, length, set};
ghost use Rattle.ints.specs.InsideRange.{Within};
ghost use Rattle.ints.specs.Table.{◌at◌};
ghost use Rattle.hour.specs.Hour.{interval_of};
ghost use Rattle.hour.specs.InsideParts.{ahead_weight, listed_prices, weighed, weight_in};
ghost use Rattle.hour.specs.InsideTested.{Timed};
ghost use Rattle.hour_weights.specs.Inside.{Listed, Column, Table};

use units::Mills;

// The price, or the weight, at a place.
fn mills_at(table: &[i32], i: usize) -> Mills
    requires { (i < length table.now) × Within (table.now at i) 120000000 }
    ensures { result.0 ≡ table.now at i }
{
    Mills(i64::from(table[i]))
}

// "Each interval's prices are read from their own stretch of the list": a stage's, which starts at stage times locations. Day-ahead is stage 0, interval k is stage k + 1.
pub fn stage_prices(list: &[i32], locations: usize, stage: usize) -> &[i32]
    requires { (stage < 13) × (13 * locations ≤ length list.now) }
    ensures numbers { result.now ≡ interval_of list.now locations stage }
    ensures block { result.ref_ptr.0 ≡ list.entry.ref_ptr.0 }
    ensures place { result.ref_ptr.1 ≡ stage * locations * 4 + list.entry.ref_ptr.1 }
{
    let from = stage * locations;
    let to = from + locations;
    &list[from..to]
}

// ---- the table

// What a day-ahead kW counts at a location: its price for the hour, taken back at the prices of the 12 intervals.
fn ahead_weight(list: &[i32], locations: usize, l: usize) -> Mills
    requires { Column locations l list.now }
    ensures { result.0 ≡ ahead_weight (listed_prices locations list.now) l }
{
    let mut weight = units::whole_hour(mills_at(list, l)).0;
    for k in 0..12 {
        weight -= mills_at(stage_prices(list, locations, k + 1), l).0;
    }
    Mills(weight)
}

// A weight, stored.
fn put(table: &mut [i32], l: usize, weight: Mills)
    requires { (l < length table.old) × Within weight.0 120000000 }
    ensures { table.new ≡ set table.old l weight.0 }
{
    let mills = weight.0 as i32;
    table[l] = mills;
}

// The table of a price list, in its place: the weights come where the day-ahead prices are.
pub fn weigh(list: &mut [i32], locations: usize)
    requires { Listed locations list.old }
    ensures { list.new ≡ weighed locations list.old }
{
    for l in 0..locations {
        let weight = ahead_weight(list, locations, l);
        put(list, l, weight);
    }
}

// ---- a kW of a market, interval and location

// What a kW counts by the table.
pub fn weight_of(locations: usize, table: &[i32], market: u8, interval: u8, location: u16) -> Mills
    requires { Timed market interval × (location < locations) × Table locations table.now }
    ensures { result.0 ≡ weight_in table.now locations market interval location }
{
    let stage = market as usize + interval as usize;
    mills_at(stage_prices(table, locations, stage), location as usize)
}
