// What is given for a load, tested in the order of refusals, 1 to 5.
#![tactic(auto)]

ghost use Rattle.std.specs.Prelude.{◌≡◌, ◌≤◌, ◌<◌, eqb, length, pos};
ghost use Rattle.ints.specs.Each.{all_to};
ghost use Rattle.ints.specs.Number.{between};
ghost use Rattle.ints.specs.InsideRange.{Within};
ghost use Rattle.refusals.specs.Number.{answer};
ghost use Rattle.split.specs.Split.{total};
ghost use Rattle.split.specs.Inside.{Shares};
ghost use Rattle.load.specs.Load.{area_count, kw, contract_count, parts_of};
ghost use Rattle.load.specs.Given.{given_of};
ghost use Rattle.load.specs.Order.{named as Order·named, counts_refusal, lengths_refusal, ranges_refusal, identities_refusal, areas_refusal, lists_refusal};
ghost use Rattle.load.specs.Inside.{Areas};

use load::Given;
use refusals::Refusal;

// 1: counts.
#[tactic(auto, unfolding(load::specs::Order::counts_refusal))]
fn counts_refusal(given: Given) -> Result<(), Refusal>
    ensures { let d = given_of given.entry in answer result ≡ counts_refusal d.loads d.imports d.generation d.areas d.contracts }
{
    if given.loads.is_empty() || 64 < given.loads.len() {
        return Err(Refusal::Length);
    }
    if !ints::is_between(given.areas, 0, 16) {
        return Err(Refusal::Length);
    }
    if 256 < given.contracts.len() / 3 {
        return Err(Refusal::Length);
    }
    if 64 < given.imports.len() {
        return Err(Refusal::Length);
    }
    if 64 < given.generation.len() {
        return Err(Refusal::Length);
    }
    Ok(())
}

// 1: lengths. n is that of the list lent for the result.
#[tactic(auto, unfolding(load::specs::Order::lengths_refusal))]
fn lengths_refusal(given: Given, n: usize) -> Result<(), Refusal>
    requires { (length given.loads.now ≤ 64) × Within given.areas 16 }
    ensures { let d = given_of given.entry in answer result ≡ lengths_refusal d.loads d.areas d.area_parts d.contracts d.tranches n }
{
    if given.area_parts.len() != ints::size(given.areas) as usize * given.loads.len()
        || given.contracts.len() % 3 != 0
        || given.tranches.len() != 64
        || n != 64 * given.loads.len()
    {
        return Err(Refusal::Length);
    }
    Ok(())
}

// Whether every contract's kW is in range.
fn kw_between(contracts: &[i64]) -> bool
    ensures { result ≡ all_to (λ j. between (pos 0) (pos 20000000) (kw contracts.now j)) (contract_count contracts.now) }
{
    for j in 0..contracts.len() / 3 {
        if !ints::is_between(load::contract_at(contracts, j).kw, 0, 20_000_000) {
            return false;
        }
    }
    true
}

// 2: ranges.
#[tactic(auto, unfolding(load::specs::Order::ranges_refusal))]
fn ranges_refusal(given: Given) -> Result<(), Refusal>
    ensures { let d = given_of given.entry in answer result ≡ ranges_refusal d.metered d.loads d.imports d.generation d.area_parts d.contracts d.tranches }
{
    if !ints::is_between(given.metered, 0, 1)
        || !ints::all_between(given.loads, 0, 20_000_000)
        || !ints::all_between(given.imports, -20_000_000, 20_000_000)
        || !ints::all_between(given.generation, 0, 20_000_000)
        || !ints::all_between(given.area_parts, 0, 1_000_000)
        || !kw_between(given.contracts)
        || !ints::all_between(given.tranches, 0, 10_000)
    {
        return Err(Refusal::Range);
    }
    Ok(())
}

// Whether contract j names a participant and an area.
fn is_named(contracts: &[i64], j: usize, areas: i64) -> bool
    requires j_bound { j < contract_count contracts.now }
    requires within { Within areas 16 }
    ensures { result ≡ Order·named areas contracts.now j }
{
    let contract = load::contract_at(contracts, j);
    ints::is_between(contract.supplier, 0, 63) && ints::is_between(contract.area, 0, areas - 1)
}

// Whether every contract does.
fn all_named(contracts: &[i64], areas: i64) -> bool
    requires { Within areas 16 }
    ensures { result ≡ all_to (Order·named areas contracts.now) (contract_count contracts.now) }
{
    for j in 0..contracts.len() / 3 {
        if !is_named(contracts, j, areas) {
            return false;
        }
    }
    true
}

// 3: identities.
#[tactic(auto, unfolding(load::specs::Order::identities_refusal))]
fn identities_refusal(given: Given) -> Result<(), Refusal>
    requires { Within given.areas 16 }
    ensures { let d = given_of given.entry in answer result ≡ identities_refusal d.distributor d.areas d.contracts }
{
    if !ints::is_between(given.distributor, 0, 63) || !all_named(given.contracts, given.areas) {
        return Err(Refusal::Identity);
    }
    Ok(())
}

// Whether an area's parts total a million.
fn totals_million(parts: &[i64]) -> bool
    requires { Shares parts.now }
    ensures { result ≡ eqb (total parts.now) 1000000 }
{
    ints::size(ints::sum(parts)) == 1_000_000
}

// Whether every area's do, for n buses.
fn all_total_million(areas: usize, n: usize, area_parts: &[i64]) -> bool
    requires { Areas areas n area_parts.now }
    ensures { result ≡ all_to (λ a. eqb (total (parts_of n area_parts.now a)) 1000000) areas }
{
    for a in 0..areas {
        if !totals_million(load::parts_of(n, a, area_parts)) {
            return false;
        }
    }
    true
}

// 5: the areas' totals.
#[tactic(auto, unfolding(load::specs::Order::areas_refusal))]
fn areas_refusal(given: Given) -> Result<(), Refusal>
    requires { Areas (area_count given.areas) (length given.loads.now) given.area_parts.now }
    ensures { let d = given_of given.entry in answer result ≡ areas_refusal (length d.loads) d.areas d.area_parts }
{
    let areas = ints::size(given.areas) as usize;
    if !all_total_million(areas, given.loads.len(), given.area_parts) {
        return Err(Refusal::AreaTotal);
    }
    Ok(())
}

// 1 to 5: what is given. n is the length of the list lent for the result.
pub fn lists_refusal(given: Given, n: usize) -> Result<(), Refusal>
    ensures { answer result ≡ lists_refusal (given_of given.entry) n }
{
    counts_refusal(given)?;
    lengths_refusal(given, n)?;
    ranges_refusal(given)?;
    identities_refusal(given)?;
    areas_refusal(given)
}
