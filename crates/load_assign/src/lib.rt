// Load at the buses: metered load, contracts and tranches handed out to those who supply it.
#![tactic(auto)]

ghost use Rattle.std.specs.Prelude.{◌≡◌, ◌*◌, ◌≤◌, pos, length, replicate};
ghost use Rattle.std.specs.Int.Signed.{le_z};
ghost use Rattle.ints.specs.Each.{all_to};
ghost use Rattle.ints.specs.Refusal.{lent};
ghost use Rattle.ints.specs.Table.{◌at◌};
ghost use Rattle.refusals.specs.Number.{answer};
ghost use Rattle.load.specs.Load.{identity, buses, bus_loads};
ghost use Rattle.load.specs.Given.{given_of};
ghost use Rattle.load.specs.Order.{meters_refusal, contracts_refusal, load_refusal, load_outcome};
ghost use Rattle.load.specs.InsideTable.{AddedCells};
ghost use Rattle.load.specs.Inside.{Contracts, Auction, Loads, MetersGiven, handed as Inside·handed};

use load::Given;
use refusals::Refusal;

// ---- Step 1: the load at each bus.

// The load at each bus, or refusal 6 or 7 where it can't be split.
fn bus_loads(given: Given, served: &mut [i64]) -> Result<(), Refusal>
    requires { MetersGiven given.loads.now given.imports.now given.generation.now × (length served.old ≡ length given.loads.now) }
    ensures value { let d = given_of given.entry in answer result ≡ meters_refusal d.metered d.loads d.imports d.generation }
    ensures served_after { let d = given_of given.entry in served.new ≡ lent (answer result) (bus_loads d.metered d.loads d.imports d.generation) served.old }
{
    if !ints::is_between(given.metered, 1, 1) {
        ints::copy(given.loads, served);
        return Ok(());
    }
    let load = ints::sum(given.imports) + ints::sum(given.generation);
    if !ints::is_between(load, 0, 20_000_000) {
        return Err(Refusal::MeteredLoad);
    }
    split_amount::split(load, given.loads, served)
}

// ---- Steps 2 and 3, and refusal 8.

// Whether the contracts are within the load at each bus.
fn all_covered(contracted: &[i64], loads: &[i64]) -> bool
    requires { length loads.now ≤ length contracted.now }
    ensures { result ≡ all_to (λ b. le_z (contracted.now at b) (loads.now at b)) (length loads.now) }
{
    for (b, load) in loads.iter().enumerate() {
        if *load < contracted[b] {
            return false;
        }
    }
    true
}

// Steps 2 and 3 for the loads at the buses, added in a table of zeros, or refusal 8 where the contracts exceed a load.
fn hand_out(given: Given, loads: &[i64], table: &mut [i64]) -> Result<(), Refusal>
    requires contracts { let d = given_of given in Contracts (buses d) d.area_parts d.contracts × Auction (buses d) (identity d.distributor) d.tranches }
    requires loads { Loads (length given.loads.now) loads.now × (length loads.now ≡ length given.loads.now) × (table.old ≡ replicate (64 * length given.loads.now) (pos 0)) }
    ensures value { let d = given_of given.entry in answer result ≡ contracts_refusal (buses d) d.area_parts d.contracts (λ b. loads.now at b) }
    ensures added_cells { let d = given_of given.entry in answer result ≡ 0 → AddedCells (buses d) (Inside·handed (buses d) d.area_parts d.contracts (identity d.distributor) d.tranches (λ b. loads.now at b)) table.old table.new }
{
    let mut contracted = [0i64; 64];
    load_hand_out::hand_contracts(
        given.loads.len(),
        given.area_parts,
        given.contracts,
        table,
        &mut contracted,
    );
    if !all_covered(&contracted, loads) {
        return Err(Refusal::Contracts);
    }
    let distributor = ints::size(given.distributor) as usize;
    load_hand_out::hand_rests(
        given.loads.len(),
        loads,
        &contracted,
        distributor,
        given.tranches,
        table,
    );
    Ok(())
}

// ---- The assignment.

// The load at the buses of one distributor, assigned to 64 participants. The list for the result is lent with zeros: it is the table in which loads are added, and it is cleared where they were and the call is refused.
pub fn assign(given: Given, out: &mut [i64]) -> Result<(), Refusal>
    requires { out.old ≡ replicate (length out.old) (pos 0) }
    ensures value { answer result ≡ load_refusal (given_of given.entry) (length out.old) }
    ensures out_after { out.new ≡ load_outcome (given_of given.entry) out.old }
{
    load_refusals::lists_refusal(given, out.len())?;
    let mut served = [0i64; 64];
    let loads = &mut served[..given.loads.len()];
    bus_loads(given, loads)?;
    if let Err(refusal) = hand_out(given, loads, out) {
        ints::clear(out);
        return Err(refusal);
    }
    Ok(())
}
