// Contracts and what remains, handed out over the table of participants and buses.
#![tactic(auto)]

ghost use Rattle.std.specs.Prelude.{◌≡◌, ◌++◌, ◌+◌, ◌*◌, ◌≤◌, ◌<◌, ltb, eqb, length, get_or, set, drop, nat_abs, ◌+ℤ◌, ◌-ℤ◌};
ghost use Rattle.ints.specs.InsideRange.{Within};
ghost use Rattle.ints.specs.Sum.{only, one};
ghost use Rattle.ints.specs.Table.{◌at◌};
ghost use Rattle.split.specs.Split.{total as Split·total, parts as Split·parts};
ghost use Rattle.load.specs.Load.{identity, supplier, contract_count, contract_at, contract_load, contracted as Load·contracted, auctioned};
ghost use Rattle.load.specs.InsideTable.{Room, Spread, Cells, AddedCells};
ghost use Rattle.load.specs.Inside.{Splittable, RoomInTables, Contracts, Empty, Auction as Inside·Auction, Packed, Won, won_part, Ranged, Remainings};

// ---- Lists and the table.

// A number of a table becomes z larger.
fn add_at(table: &mut [i64], k: usize, z: i64)
    requires { (k < length table.old) × Within (table.old at k) 100000000000000 × Within z 1000000000000 }
    ensures { table.new ≡ set table.old k (table.old at k +ℤ z) }
{
    table[k] += z;
}

// Adds parts to the numbers from a place on.
fn add(table: &mut [i64], start: usize, parts: &[i64])
    requires { Room table.old (λ i. start + i) parts.now (length parts.now) }
    ensures { Spread table.old (λ i. start + i) parts.now (length parts.now) table.new }
{
    for (i, part) in parts.iter().enumerate() {
        add_at(table, start + i, *part);
    }
}

// kW split over shares of a known total.
fn portion(amount: i64, shares: &[i64], total: u64, made: &mut [i64])
    requires splittable { Splittable amount shares.now × (total ≡ Split·total shares.now) }
    requires made_len { length made.old ≡ length shares.now }
    ensures { made.new ≡ Split·parts amount shares.now }
{
    split_parts::fill(false, ints::size(amount), shares, total, made);
}

// ---- Step 2: each contract, by itself.

// A contract's parts, in millionths of its kW, made in the front of a list and added to its supplier's row and to what is contracted.
fn hand_parts(
    supplier: usize,
    kw: i64,
    shares: &[i64],
    made: &mut [i64],
    table: &mut [i64],
    contracted: &mut [i64],
)
    requires splittable { Splittable kw shares.now × (Split·total shares.now ≡ 1000000) × (supplier < 64) }
    requires room_in_tables { RoomInTables (length shares.now) table.old contracted.old × (length made.old ≡ 64) }
    ensures added_cells { AddedCells (length shares.now) (λ p b. only (eqb supplier p) (Split·parts kw shares.now at b)) table.old table.new }
    ensures added_cells_2 { AddedCells (length shares.now) (λ p b. only (eqb 0 p) (Split·parts kw shares.now at b)) contracted.old contracted.new }
{
    let n = shares.len();
    let parts = &mut made[..n];
    portion(kw, shares, 1_000_000, parts);
    add(table, supplier * n, parts);
    add(contracted, 0, parts);
}

// Contract j, by itself.
fn hand_contract(
    j: usize,
    n: usize,
    area_parts: &[i64],
    contracts: &[i64],
    made: &mut [i64],
    table: &mut [i64],
    contracted: &mut [i64],
)
    requires contracts { Contracts n area_parts.now contracts.now × (j < contract_count contracts.now) }
    requires room_in_tables { RoomInTables n table.old contracted.old × (length made.old ≡ 64) }
    ensures added_cells { AddedCells n (λ p b. only (eqb (identity (supplier contracts.now j)) p) (contract_at n area_parts.now contracts.now j b)) table.old table.new }
    ensures added_cells_2 { AddedCells n (λ p b. only (eqb 0 p) (contract_at n area_parts.now contracts.now j b)) contracted.old contracted.new }
{
    let contract = load::contract_at(contracts, j);
    let supplier = ints::size(contract.supplier) as usize;
    let area = ints::size(contract.area) as usize;
    let shares = load::parts_of(n, area, area_parts);
    hand_parts(supplier, contract.kw, shares, made, table, contracted);
}

// All contracts, one after the other, at n buses.
pub fn hand_contracts(
    n: usize,
    area_parts: &[i64],
    contracts: &[i64],
    table: &mut [i64],
    contracted: &mut [i64],
)
    requires contracts { Contracts n area_parts.now contracts.now }
    requires empty { Empty n table.old contracted.old }
    ensures added_cells { AddedCells n (contract_load n area_parts.now contracts.now) table.old table.new }
    ensures added_cells_2 { AddedCells n (λ p b. only (eqb 0 p) (Load·contracted n area_parts.now contracts.now b)) contracted.old contracted.new }
{
    let mut made = [0i64; 64];
    for j in 0..contracts.len() / 3 {
        hand_contract(j, n, area_parts, contracts, &mut made, table, contracted);
    }
}

// ---- Step 3: what remains at each bus.

// 1 where a number isn't 0, else 0.
fn counted(x: i64) -> usize
    ensures { result ≡ one (ltb 0 (nat_abs x)) }
{
    if ints::size(x) == 0 { 0 } else { 1 }
}

// The tranches that aren't 0, in the front of a list, and in the front of another who won each: how many. What is 0 is stored, too, and then written over.
fn pack(tranches: &[i64], won: &mut [i64], winners: &mut [usize]) -> usize
    requires { (length tranches.now ≡ 64) × (length won.old ≡ 64) × (length winners.old ≡ 64) }
    ensures { Packed tranches.now 64 won.new winners.new result }
{
    let mut m: usize = 0;
    for i in 0..64 {
        won[m] = tranches[i];
        winners[m] = i;
        m += counted(tranches[i]);
    }
    m
}

// Adds parts at a bus, each in its winner's row.
fn add_won(table: &mut [i64], bus: usize, n: usize, winners: &[usize], parts: &[i64])
    requires { Room table.old (λ j. get_or winners.now j 0 * n + bus) parts.now (length winners.now) }
    ensures { Spread table.old (λ j. get_or winners.now j 0 * n + bus) parts.now (length winners.now) table.new }
{
    for (j, winner) in winners.iter().enumerate() {
        add_at(table, *winner * n + bus, parts[j]);
    }
}

// Tranches that aren't 0, who won each, and their total; and the distributor, with whom what remains stays where there are none.
#[derive(Clone, Copy)]
struct Auction<'a> {
    distributor: usize,
    won: &'a [i64],
    winners: &'a [usize],
    total: u64,
}

// What remains at a bus, over the winners of tranches.
fn hand_rest(
    auction: Auction,
    n: usize,
    bus: usize,
    remaining: i64,
    made: &mut [i64],
    table: &mut [i64],
)
    requires won { Won auction.distributor auction.won.now auction.winners.now × (auction.total ≡ Split·total auction.won.now) × (length made.old ≡ 64) }
    requires ranged { Ranged remaining × (bus < n) × (n ≤ 64) × (length table.old ≡ 64 * n) × Cells n table.old 1000000000000 }
    ensures { let a = auction.entry in AddedCells n (λ p b. only (eqb bus b) (won_part a.distributor a.won.now a.winners.now remaining p)) table.old table.new }
{
    if auction.total == 0 {
        add_at(table, auction.distributor * n + bus, remaining);
        return;
    }
    let parts = &mut made[..auction.won.len()];
    portion(remaining, auction.won, auction.total, parts);
    add_won(table, bus, n, auction.winners, parts);
}

// What remains at each of n buses.
fn hand_won(auction: Auction, n: usize, loads: &[i64], contracted: &[i64], table: &mut [i64])
    requires won { Won auction.distributor auction.won.now auction.winners.now × (auction.total ≡ Split·total auction.won.now) × Remainings n loads.now contracted.now }
    requires n_bound { (n ≤ 64) × (length table.old ≡ 64 * n) × Cells n table.old 100000000000 }
    ensures { let a = auction.entry in AddedCells n (λ p b. won_part a.distributor a.won.now a.winners.now (loads.now at b -ℤ contracted.now at b) p) table.old table.new }
{
    let mut made = [0i64; 64];
    for b in 0..n {
        let remaining = loads[b] - contracted[b];
        hand_rest(auction, n, b, remaining, &mut made, table);
    }
}

// What remains at each of n buses, which stand in the front of both lists. A split with the tranches of 0 left out is the same split, and shorter.
pub fn hand_rests(
    n: usize,
    loads: &[i64],
    contracted: &[i64],
    distributor: usize,
    tranches: &[i64],
    table: &mut [i64],
)
    requires auction { Inside·Auction n distributor tranches.now × Remainings n loads.now contracted.now }
    requires table_len { (length table.old ≡ 64 * n) × Cells n table.old 100000000000 }
    ensures { AddedCells n (λ p b. auctioned distributor tranches.now (loads.now at b -ℤ contracted.now at b) p) table.old table.new }
{
    let mut won = [0i64; 64];
    let mut winners = [0usize; 64];
    let m = pack(tranches, &mut won, &mut winners);
    let won = &won[..m];
    let auction = Auction {
        distributor,
        won,
        winners: &winners[..m],
        total: split_parts::total_of(won),
    };
    hand_won(auction, n, loads, contracted, table);
}
