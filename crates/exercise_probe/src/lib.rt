// What the tests see of the engine beneath its C interface: decoding one row, the check of a file and the reader of its rows.
#![tactic(auto)]

ghost use Rattle.std.specs.Prelude.{◌≡◌, length};
ghost use Rattle.refusals.specs.Number.{answer};
ghost use Rattle.exercise.specs.Order.{file_refusal};
ghost use Rattle.exercise.specs.Reader.{stretch};
ghost use Rattle.exercise_probe.specs.Inside.{probe_refusal, probe_outcome, rows_outcome};

use refusals::Refusal;

// The six numbers of a row of six bytes.
fn read_alone(
    participants: i64,
    locations: i64,
    row: &[u8],
    fields: &mut [u8],
) -> Result<(), Refusal>
    ensures value { answer result ≡ probe_refusal participants locations row.now (length fields.old) }
    ensures fields_after { fields.new ≡ probe_outcome participants locations row.now fields.old }
{
    let row = exercise_rows::decode_row(participants, locations, row)?;
    if fields.len() != 48 {
        return Err(Refusal::Length);
    }
    exercise_read::put_row(row, fields);
    Ok(())
}

// One row of six bytes; `fields` takes its six numbers.
#[unsafe(no_mangle)]
pub extern "C" fn probe_row(participants: i64, locations: i64, row: &[u8], fields: &mut [u8]) -> u32
    ensures value { result ≡ probe_refusal participants locations row.now (length fields.old) }
    ensures fields_after { fields.new ≡ probe_outcome participants locations row.now fields.old }
{
    refusals::answer(read_alone(participants, locations, row, fields))
}

// The check of a file.
#[unsafe(no_mangle)]
pub extern "C" fn probe_check(file: &[u8]) -> u32
    ensures { result ≡ file_refusal file.now }
{
    refusals::answer(exercise_file::check(file))
}

// A copy, byte by byte: std's `copy_from_slice` would have the archive ask for a function from outside.
fn copy_bytes(from: &[u8], to: &mut [u8])
    requires { length to.old ≡ length from.now }
    ensures { to.new ≡ from.now }
{
    for (i, byte) in to.iter_mut().enumerate() {
        *byte = from[i];
    }
}

// How many bytes the reader's stretch has; `rows` takes a copy where it has that length.
#[tactic(auto, unfolding(crate::specs::Inside::rows_outcome))]
#[unsafe(no_mangle)]
pub extern "C" fn probe_rows(file: &[u8], rows: &mut [u8]) -> u64
    ensures value { result ≡ length (stretch file.now) }
    ensures rows_after { rows.new ≡ rows_outcome file.now rows.old }
{
    let part = exercise_file::rows_stretch(file);
    if rows.len() == part.len() {
        copy_bytes(part, rows);
    }
    part.len() as u64
}
