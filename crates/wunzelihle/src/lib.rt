// What the C server calls: each but `wz_version` and `wz_participants` answers the number of its refusal, or 0. 1 is written out where a length is refused here. Lists cross in bytes, eight a number; the work is done in the crates below.
#![tactic(auto)]

ghost use Rattle.std.specs.Prelude.{◌≡◌, [], ◌∷◌, ◌*◌, length};
ghost use Rattle.ints.specs.Refusal.{lent};
ghost use Rattle.numbers.specs.Bytes.{numbers, encoded};
ghost use Rattle.refusals.specs.Number.{answer};
ghost use Rattle.split.specs.Split.{split_refusal, parts as Split·parts};
ghost use Rattle.exercise.specs.Cause.{hour_cause, given_cause, cause_refusal, cause_outcome};
ghost use Rattle.exercise.specs.File.{hour_of};
ghost use Rattle.exercise.specs.Lists.{content, participants_of, file_counts_refusal, file_counts_outcome, write_refusal, write_outcome, read_refusal, prices_listed, rows_listed, transactions_listed};
ghost use Rattle.exercise.specs.Order.{in_bytes, hour_refusal};
ghost use Rattle.hour.specs.Charges.{congestion_charges_of, loss_charges_of};
ghost use Rattle.hour.specs.Surplus.{credits, nets};
ghost use Rattle.wunzelihle.specs.Version.{version};
ghost use Rattle.wunzelihle.specs.Split.{split_bytes_refusal, split_bytes_outcome};
ghost use Rattle.wunzelihle.specs.Load.{load_bytes_refusal, load_bytes_outcome};

use exercise::{Counts, HourLists};
use load_bytes::GivenBytes;
use refusals::Refusal;

// Shares read into a list, split there, and the parts written from it.
fn split_listed(
    amount: i64,
    shares: &[u8],
    list: &mut [i64],
    parts: &mut [u8],
) -> Result<(), Refusal>
    requires { (length shares.now ≡ 8 * length list.old) × (length parts.old ≡ 8 * length list.old) }
    ensures value { answer result ≡ split_refusal amount (numbers shares.now) (length list.old) }
    ensures parts_after { parts.new ≡ lent (answer result) (encoded (Split·parts amount (numbers shares.now))) parts.old }
{
    numbers::read_all(shares, list);
    split_amount::split_in_place(amount, list)?;
    numbers::write_all(list, parts);
    Ok(())
}

#[unsafe(no_mangle)]
pub extern "C" fn wz_split(amount: i64, shares: &[u8], parts: &mut [u8]) -> u32
    ensures value { result ≡ split_bytes_refusal amount shares.now (length parts.old) }
    ensures parts_after { parts.new ≡ split_bytes_outcome amount shares.now parts.old }
{
    if shares.len() % 8 != 0 {
        return 1;
    }
    if parts.len() % 8 != 0 {
        return 1;
    }
    let n = shares.len() / 8;
    if 64 < n {
        return 1;
    }
    if parts.len() / 8 != n {
        return 1;
    }
    let mut list = [0i64; 64];
    refusals::answer(split_listed(amount, shares, &mut list[..n], parts))
}

#[unsafe(no_mangle)]
pub extern "C" fn wz_assign_load(
    metered: i64,
    distributor: i64,
    loads: &[u8],
    imports: &[u8],
    generation: &[u8],
    areas: i64,
    area_parts: &[u8],
    contracts: &[u8],
    tranches: &[u8],
    out: &mut [u8],
) -> u32
    ensures value { result ≡ load_bytes_refusal metered distributor loads.now imports.now generation.now areas area_parts.now contracts.now tranches.now (length out.old) }
    ensures out_after { out.new ≡ load_bytes_outcome metered distributor loads.now imports.now generation.now areas area_parts.now contracts.now tranches.now out.old }
{
    if !numbers::is_list(loads.len(), 64) {
        return 1;
    }
    if !numbers::is_list(imports.len(), 64) {
        return 1;
    }
    if !numbers::is_list(generation.len(), 64) {
        return 1;
    }
    if !numbers::is_list(area_parts.len(), 1024) {
        return 1;
    }
    if !numbers::is_list(contracts.len(), 768) {
        return 1;
    }
    if !numbers::is_list(tranches.len(), 64) {
        return 1;
    }
    if !numbers::is_list(out.len(), 4096) {
        return 1;
    }
    let given = GivenBytes {
        metered,
        distributor,
        loads,
        imports,
        generation,
        areas,
        area_parts,
        contracts,
        tranches,
    };
    refusals::answer(load_bytes::assign_listed(given, out))
}

#[unsafe(no_mangle)]
pub extern "C" fn wz_settle_hour(
    file: &[u8],
    congestion: &mut [u8],
    loss: &mut [u8],
    credit: &mut [u8],
    net: &mut [u8],
) -> u32
    ensures value { result ≡ hour_refusal in_bytes file.now (length congestion.old ∷ length loss.old ∷ length credit.old ∷ length net.old ∷ []) }
    ensures congestion_after { congestion.new ≡ lent result (encoded (congestion_charges_of (hour_of file.now))) congestion.old }
    ensures loss_after { loss.new ≡ lent result (encoded (loss_charges_of (hour_of file.now))) loss.old }
    ensures credit_after { credit.new ≡ lent result (encoded (credits (hour_of file.now))) credit.old }
    ensures net_after { net.new ≡ lent result (encoded (nets (hour_of file.now))) net.old }
{
    refusals::answer(hour_bytes::settle_bytes(file, congestion, loss, credit, net))
}

#[unsafe(no_mangle)]
pub extern "C" fn wz_write_file(
    participants: i64,
    locations: i64,
    rows: i64,
    transactions: i64,
    edition: i64,
    prices: &[u8],
    row_list: &[u8],
    transaction_list: &[u8],
    file: &mut [u8],
) -> u32
    ensures value { result ≡ write_refusal (content participants locations rows transactions edition prices.now row_list.now transaction_list.now) (length file.old) }
    ensures file_after { file.new ≡ write_outcome (content participants locations rows transactions edition prices.now row_list.now transaction_list.now) file.old }
{
    let counts = Counts {
        participants,
        locations,
        rows,
        transactions,
        edition,
    };
    let lists = HourLists {
        prices,
        rows: row_list,
        transactions: transaction_list,
    };
    refusals::answer(exercise_write::write_file(counts, lists, file))
}

#[unsafe(no_mangle)]
pub extern "C" fn wz_read_file(
    file: &[u8],
    prices: &mut [u8],
    row_list: &mut [u8],
    transaction_list: &mut [u8],
) -> u32
    ensures value { result ≡ read_refusal file.now (length prices.old) (length row_list.old) (length transaction_list.old) }
    ensures prices_after { prices.new ≡ lent result (prices_listed (hour_of file.now)) prices.old }
    ensures row_list_after { row_list.new ≡ lent result (rows_listed (hour_of file.now)) row_list.old }
    ensures transaction_list_after { transaction_list.new ≡ lent result (transactions_listed (hour_of file.now)) transaction_list.old }
{
    refusals::answer(exercise_read::read_file(file, prices, row_list, transaction_list))
}

#[unsafe(no_mangle)]
pub extern "C" fn wz_version() -> u32
    ensures { result ≡ version }
{
    20000
}

#[unsafe(no_mangle)]
pub extern "C" fn wz_participants(file: &[u8]) -> u32
    ensures { result ≡ participants_of file.now }
{
    exercise_file::participants(file)
}

#[unsafe(no_mangle)]
pub extern "C" fn wz_counts(file: &[u8], counts: &mut [u8]) -> u32
    ensures value { result ≡ file_counts_refusal file.now (length counts.old) }
    ensures counts_after { counts.new ≡ file_counts_outcome file.now counts.old }
{
    refusals::answer(exercise_read::read_counts(file, counts))
}

#[unsafe(no_mangle)]
pub extern "C" fn wz_find_cause(file: &[u8], cause: &mut [u8]) -> u32
    ensures value { result ≡ cause_refusal (length cause.old) }
    ensures cause_after { cause.new ≡ cause_outcome (hour_cause file.now) cause.old }
{
    if cause.len() != 56 {
        return 1;
    }
    hour_cause::put_cause(hour_cause::numbers_of(hour_find::find_cause(file)), cause);
    0
}

#[unsafe(no_mangle)]
pub extern "C" fn wz_find_list_cause(
    participants: i64,
    locations: i64,
    rows: i64,
    transactions: i64,
    edition: i64,
    prices: &[u8],
    row_list: &[u8],
    transaction_list: &[u8],
    cause: &mut [u8],
) -> u32
    ensures value { result ≡ cause_refusal (length cause.old) }
    ensures cause_after { cause.new ≡ cause_outcome (given_cause (content participants locations rows transactions edition prices.now row_list.now transaction_list.now)) cause.old }
{
    if cause.len() != 56 {
        return 1;
    }
    let counts = Counts {
        participants,
        locations,
        rows,
        transactions,
        edition,
    };
    let lists = HourLists {
        prices,
        rows: row_list,
        transactions: transaction_list,
    };
    hour_cause::put_cause(
        hour_cause::numbers_of(exercise_list_cause::list_cause(counts, lists)),
        cause,
    );
    0
}
