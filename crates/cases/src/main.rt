// Runs the cases of document 01, those that are proved in specs/Cases too, and prints what each gives.
#![tactic(auto)]

use load::Given;
use refusals::Refusal;
use std::io;
use units::Twelfths;

// The numbers of a list, a space before each.
fn print_list(rt: &impl Print, list: &[i64]) -> io::Result<()> {
    for z in list {
        print!(rt; " {}", *z)?;
    }
    Ok(())
}

fn print_refused(rt: &impl Print, refusal: Refusal) -> io::Result<()> {
    print!(rt; ": refused {}", u32::from(refusal))
}

// An amount over shares: its parts, or its refusal.
fn run_split(rt: &impl Print, amount: i64, shares: &[i64], parts: &mut [i64]) -> io::Result<()> {
    print!(rt; "split {amount} over")?;
    print_list(rt, shares)?;
    match split_amount::split(amount, shares, parts) {
        Ok(()) => {
            print!(rt; " is")?;
            print_list(rt, parts)?;
        }
        Err(refusal) => print_refused(rt, refusal)?,
    }
    println!(rt; "")
}

// Twelfths, rounded.
fn run_rounding(rt: &impl Print, amount: i64) -> io::Result<()> {
    let cents = units::to_cents(Twelfths(amount));
    println!(rt; "{amount} twelfths are {} cents", cents.0)
}

// The load of a metered distributor, participant 0, at three buses: what the participants 0, 1 and 2 get at each, or the refusal.
fn run_load(rt: &impl Print, given: Given) -> io::Result<()> {
    let mut out = [0i64; 192];
    print!(rt; "load at")?;
    print_list(rt, given.loads)?;
    print!(rt; " metered")?;
    print_list(rt, given.imports)?;
    print_list(rt, given.generation)?;
    match load_assign::assign(given, &mut out) {
        Ok(()) => {
            print!(rt; " is")?;
            print_list(rt, &out[0..3])?;
            print!(rt; ",")?;
            print_list(rt, &out[3..6])?;
            print!(rt; ",")?;
            print_list(rt, &out[6..9])?;
        }
        Err(refusal) => print_refused(rt, refusal)?,
    }
    println!(rt; "")
}

// P1 to P7 and two refusals, by how many parties share.
fn run_three(rt: &impl Print) -> io::Result<()> {
    let mut parts = [0i64; 3];
    run_split(rt, 10, &[1, 1, 1], &mut parts)?;
    run_split(rt, -10, &[1, 1, 1], &mut parts)?;
    run_split(rt, 100, &[1, 2, 3], &mut parts)
}

fn run_two(rt: &impl Print) -> io::Result<()> {
    let mut parts = [0i64; 2];
    run_split(rt, 5, &[0, 1], &mut parts)?;
    run_split(rt, 1, &[1, 1], &mut parts)
}

fn run_one(rt: &impl Print) -> io::Result<()> {
    let mut parts = [0i64; 1];
    run_split(rt, 0, &[0], &mut parts)?;
    run_split(rt, 1, &[0], &mut parts)?;
    run_split(rt, 1_000_000_001, &[1], &mut parts)?;
    run_split(rt, 1, &[], &mut parts)
}

// Metered load alone, no tranche won.
fn run_metered(
    rt: &impl Print,
    loads: &[i64],
    imports: &[i64],
    generation: &[i64],
) -> io::Result<()> {
    let none = [0i64; 64];
    let given = Given {
        metered: 1,
        distributor: 0,
        loads,
        imports,
        generation,
        areas: 0,
        area_parts: &[],
        contracts: &[],
        tranches: &none,
    };
    run_load(rt, given)
}

// The same with a contract of participant 2 in one area, and tranches.
fn run_contract(rt: &impl Print) -> io::Result<()> {
    let mut tranches = [0i64; 64];
    tranches[0] = 3;
    tranches[1] = 1;
    let given = Given {
        metered: 1,
        distributor: 0,
        loads: &[100, 200, 300],
        imports: &[500, -40],
        generation: &[200],
        areas: 1,
        area_parts: &[500_000, 333_333, 166_667],
        contracts: &[2, 0, 10],
        tranches: &tranches,
    };
    run_load(rt, given)
}

fn main(rt: HostRuntime) -> io::Result<()> {
    run_three(&rt)?;
    run_two(&rt)?;
    run_one(&rt)?;
    run_rounding(&rt, 60_000)?;
    run_rounding(&rt, 59_999)?;
    run_rounding(&rt, -60_000)?;
    run_metered(&rt, &[100, 200, 300], &[500, -40], &[200])?;
    run_metered(&rt, &[100, 200, 300], &[601], &[])?;
    run_contract(&rt)?;
    run_metered(&rt, &[0, 0, 0], &[], &[])?;
    run_metered(&rt, &[0, 0, 0], &[1], &[])
}
