// The exercise file (document 01, "The exercise file"): its header, its check and its reader.
#![tactic(auto)]

ghost use Rattle.std.specs.Prelude.{◌≡◌, ◌+◌, ◌*◌, ◌≤◌, ◌<◌, length};
ghost use Rattle.exercise.specs.File.{header_of, header, places_of, hour_of};
ghost use Rattle.exercise.specs.Inside.{Small};
ghost use Rattle.exercise.specs.Lists.{participants_of};
ghost use Rattle.exercise.specs.Order.{header_refusal, frame_refusal, spare_of, file_refusal};
ghost use Rattle.exercise.specs.Reader.{stretch, stretch_start};
ghost use Rattle.hour.specs.Order.{content_refusal};
ghost use Rattle.refusals.specs.Number.{answer};

use exercise::{Header, Places};
use refusals::Refusal;

// The header of 40 bits.
fn header_of(v: u64) -> Header
    ensures { result ≡ header_of v }
{
    Header {
        participants: (v / 17179869184 % 64 + 1) as usize,
        locations: (v / 268435456 % 64 + 1) as usize,
        rows: (v / 65536 % 4096) as usize,
        transactions: (v / 64 % 1024) as usize,
        edition: (v / 1 % 64) as usize,
    }
}

// The header of a file.
#[tactic(auto, unfolding(exercise::specs::File::header))]
pub fn read_header(file: &[u8]) -> Header
    requires { 5 ≤ length file.now }
    ensures { result ≡ header file.now }
{
    header_of(exercise_rows::bytes_at::<5>(file, 0))
}

// How many participants a file's header tells of, 0 where it has none.
pub fn participants(file: &[u8]) -> u32
    ensures { result ≡ participants_of file.now }
{
    if file.len() < 5 {
        return 0;
    }
    read_header(file).participants as u32
}

// Where the parts of a file with such a header stand.
#[tactic(auto, unfolding(exercise::specs::File::places_of))]
pub fn places_of(header: Header) -> Places
    requires { Small header }
    ensures { result ≡ places_of header }
{
    let rows = 5 + 3 * (26 * header.locations);
    let transactions = rows + 6 * header.rows;
    let edition = exercise_editions::edition_of(header.edition as u64);
    let size = exercise_editions::transaction_size(edition);
    Places {
        prices: 5,
        rows,
        transactions,
        end: transactions + size * header.transactions,
    }
}

// What is refused of a header in a file of so many bytes.
#[tactic(auto, unfolding(exercise::specs::Order::header_refusal))]
fn header_refusal(header: Header, bytes: usize) -> Result<(), Refusal>
    requires { Small header }
    ensures { answer result ≡ header_refusal header bytes }
{
    if header.edition > 1 {
        return Err(Refusal::File);
    }
    if header.rows > 2048 {
        return Err(Refusal::Length);
    }
    if header.transactions > 256 {
        return Err(Refusal::Length);
    }
    if bytes != places_of(header).end {
        return Err(Refusal::File);
    }
    Ok(())
}

// What is refused up to the file's length.
#[tactic(auto, unfolding(exercise::specs::Order::frame_refusal))]
pub fn frame_refusal(file: &[u8]) -> Result<(), Refusal>
    ensures { answer result ≡ frame_refusal file.now }
{
    if file.len() < 5 {
        return Err(Refusal::File);
    }
    header_refusal(read_header(file), file.len())
}

// What is refused from the prices on.
pub fn content_refusal(file: &[u8]) -> Result<(), Refusal>
    requires { frame_refusal file.now ≡ 0 }
    ensures { answer result ≡ content_refusal (hour_of file.now) (spare_of file.now) }
{
    let header = read_header(file);
    let Places {
        prices,
        rows,
        transactions,
        end,
    } = places_of(header);
    exercise_prices::prices_refusal(&file[prices..rows], 26 * header.locations)?;
    exercise_rows::rows_refusal(
        header.participants,
        header.locations,
        &file[rows..transactions],
        header.rows,
    )?;
    exercise_rows::transactions_refusal(
        exercise_editions::edition_of(header.edition as u64),
        header.participants,
        header.locations,
        &file[transactions..end],
        header.transactions,
    )
}

// What is refused of a file, by the order to its last transaction.
pub fn check(file: &[u8]) -> Result<(), Refusal>
    ensures { answer result ≡ file_refusal file.now }
{
    frame_refusal(file)?;
    content_refusal(file)
}

// The stretch of the file that holds the rows, where nothing is refused of it; else the empty one at its start.
pub fn rows_stretch(file: &[u8]) -> &[u8]
    ensures bytes { result.now ≡ stretch file.now }
    ensures block { result.ref_ptr.0 ≡ file.entry.ref_ptr.0 }
    ensures place { result.ref_ptr.1 ≡ stretch_start file.now + file.entry.ref_ptr.1 }
{
    if check(file).is_err() {
        return &file[0..0];
    }
    let Places {
        rows,
        transactions,
        ..
    } = places_of(read_header(file));
    &file[rows..transactions]
}
