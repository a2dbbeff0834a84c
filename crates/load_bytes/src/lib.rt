// An assignment with lists that cross in bytes, eight a number: read from slices, and its result written to one.
#![tactic(auto)]

ghost use Rattle.std.specs.Prelude.{◌≡◌, true, ◌++◌, ◌+◌, ◌/◌, ◌%◌, ◌≤◌, length, take};
ghost use Rattle.ints.specs.Refusal.{lent};
ghost use Rattle.numbers.specs.Bytes.{numbers, encoded};
ghost use Rattle.refusals.specs.Number.{answer};
ghost use Rattle.load.specs.Load.{assignment};
ghost use Rattle.load.specs.Given.{given_of};
ghost use Rattle.load.specs.Order.{load_refusal};
ghost use Rattle.load_bytes.specs.Inside.{AllListed, bytes_given, all_numbers, numbers_in_all, Readable, Ready};

use load::Given;
use refusals::Refusal;

// What an assignment is given, each list in bytes.
#[derive(Clone, Copy)]
pub struct GivenBytes<'a> {
    pub metered: i64,
    pub distributor: i64,
    pub loads: &'a [u8],
    pub imports: &'a [u8],
    pub generation: &'a [u8],
    pub areas: i64,
    pub area_parts: &'a [u8],
    pub contracts: &'a [u8],
    pub tranches: &'a [u8],
}

// ---- Slices read into one list, one behind the other.

// A slice's numbers, read into a list from a place on: the place behind them.
fn read_at(bytes: &[u8], at: usize, list: &mut [i64]) -> usize
    requires { (length bytes.now % 8 ≡ 0) × (at + length bytes.now / 8 ≤ length list.old) }
    ensures value { result ≡ at + length bytes.now / 8 }
    ensures list_after { take result list.new ≡ take at list.old ++ numbers bytes.now }
{
    let end = at + bytes.len() / 8;
    numbers::read_all(bytes, &mut list[at..end]);
    end
}

// All slices' numbers, read into the front of a list.
fn read_lists(given: GivenBytes, list: &mut [i64])
    requires { Readable given (length list.old) }
    ensures { take (numbers_in_all given.entry) list.new ≡ all_numbers given.entry }
{
    let b = read_at(given.loads, 0, list);
    let i = read_at(given.imports, b, list);
    let g = read_at(given.generation, i, list);
    let p = read_at(given.area_parts, g, list);
    let c = read_at(given.contracts, p, list);
    read_at(given.tranches, c, list);
}

// What is given, by the list that the slices were read into.
fn given_in<'a>(given: GivenBytes, list: &'a [i64]) -> Given<'a>
    requires { (numbers_in_all given ≤ length list.now) × (take (numbers_in_all given) list.now ≡ all_numbers given) }
    ensures { given_of result ≡ bytes_given given.entry }
{
    let b = given.loads.len() / 8;
    let i = b + given.imports.len() / 8;
    let g = i + given.generation.len() / 8;
    let p = g + given.area_parts.len() / 8;
    let c = p + given.contracts.len() / 8;
    let t = c + given.tranches.len() / 8;
    Given {
        metered: given.metered,
        distributor: given.distributor,
        loads: &list[..b],
        imports: &list[b..i],
        generation: &list[i..g],
        areas: given.areas,
        area_parts: &list[g..p],
        contracts: &list[p..c],
        tranches: &list[c..t],
    }
}

// ---- The assignment.

// An assignment with working lists that have room: slices read into one, the result made in the other, which holds zeros, and written last.
fn assign_read(
    given: GivenBytes,
    list: &mut [i64],
    made: &mut [i64],
    out: &mut [u8],
) -> Result<(), Refusal>
    requires { Readable given (length list.old) × Ready (length out.old) made.old }
    ensures value { answer result ≡ load_refusal (bytes_given given.entry) (length out.old / 8) }
    ensures out_after { out.new ≡ lent (answer result) (encoded (assignment (bytes_given given.entry))) out.old }
{
    read_lists(given, list);
    load_assign::assign(given_in(given, list), made)?;
    numbers::write_all(made, out);
    Ok(())
}

// How many numbers the slices hold.
fn count_all(given: GivenBytes) -> usize
    ensures { result ≡ numbers_in_all given.entry }
{
    given.loads.len() / 8
        + given.imports.len() / 8
        + given.generation.len() / 8
        + given.area_parts.len() / 8
        + given.contracts.len() / 8
        + given.tranches.len() / 8
}

// Whether so many numbers of lists, and so many of result, are few: no more than 8 buses with 8 imports, 8 generators, 16 areas and 16 contracts have.
fn are_few(lists: usize, res: usize) -> bool
    ensures { result ≡ true → (lists ≤ 264) × (res ≤ 512) }
{
    lists <= 264 && res <= 512
}

// An assignment with working lists for so many numbers, and for so many of the result.
fn assign_sized<const LISTS: usize, const RESULT: usize>(
    given: GivenBytes,
    out: &mut [u8],
) -> Result<(), Refusal>
    requires readable { Readable given LISTS }
    requires room { (length out.old % 8 ≡ 0) × (length out.old / 8 ≤ RESULT) × (LISTS ≤ 4096) × (RESULT ≤ 4096) }
    ensures value { answer result ≡ load_refusal (bytes_given given.entry) (length out.old / 8) }
    ensures out_after { out.new ≡ lent (answer result) (encoded (assignment (bytes_given given.entry))) out.old }
{
    let mut list = [0i64; LISTS];
    let mut made = [0i64; RESULT];
    let m = out.len() / 8;
    assign_read(given, &mut list, &mut made[..m], out)
}

// An assignment from slices that are lists of accepted lengths, or shorter. Where they are short, so are the working lists, which cost time to clear.
pub fn assign_listed(given: GivenBytes, out: &mut [u8]) -> Result<(), Refusal>
    requires { AllListed given.loads.now given.imports.now given.generation.now given.area_parts.now given.contracts.now given.tranches.now (length out.old) }
    ensures value { answer result ≡ load_refusal (bytes_given given.entry) (length out.old / 8) }
    ensures out_after { out.new ≡ lent (answer result) (encoded (assignment (bytes_given given.entry))) out.old }
{
    if are_few(count_all(given), out.len() / 8) {
        return assign_sized::<264, 512>(given, out);
    }
    assign_sized::<2048, 4096>(given, out)
}
