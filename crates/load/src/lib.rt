// What an assignment is given, and what holds of the result; crate `load_assign` makes it. Here runs only what several of its steps ask for: a contract, and the parts of an area.
#![tactic(auto)]

ghost use Rattle.std.specs.Prelude.{◌≡◌, ◌+◌, ◌*◌, ◌≤◌, ◌<◌, length};
ghost use Rattle.load.specs.Load.{supplier, area, kw, contract_count, parts_of};

// What an assignment is given. In contracts are three numbers for each, one behind the other, and in area parts those of area after area.
#[derive(Clone, Copy)]
pub struct Given<'a> {
    pub metered: i64,
    pub distributor: i64,
    pub loads: &'a [i64],
    pub imports: &'a [i64],
    pub generation: &'a [i64],
    pub areas: i64,
    pub area_parts: &'a [i64],
    pub contracts: &'a [i64],
    pub tranches: &'a [i64],
}

#[derive(Clone, Copy)]
pub struct Contract {
    pub supplier: i64,
    pub area: i64,
    pub kw: i64,
}

// Contract j.
pub fn contract_at(contracts: &[i64], j: usize) -> Contract
    requires { j < contract_count contracts.now }
    ensures supplier_is { result.supplier ≡ supplier contracts.now j }
    ensures area_is { result.area ≡ area contracts.now j }
    ensures kw_is { result.kw ≡ kw contracts.now j }
{
    Contract {
        supplier: contracts[3 * j],
        area: contracts[3 * j + 1],
        kw: contracts[3 * j + 2],
    }
}

// The parts of an area, for n buses.
pub fn parts_of(n: usize, a: usize, area_parts: &[i64]) -> &[i64]
    requires { a * n + n ≤ length area_parts.now }
    ensures parts { result.now ≡ parts_of n area_parts.now a }
    ensures block { result.ref_ptr.0 ≡ area_parts.entry.ref_ptr.0 }
    ensures place { result.ref_ptr.1 ≡ a * n * 8 + area_parts.entry.ref_ptr.1 }
{
    let k = a * n;
    let e = k + n;
    &area_parts[k..e]
}
