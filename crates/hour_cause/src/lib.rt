// Why a price, a row, a transaction or a surplus is refused: the first number that is outside its range, what stands there and what may.
#![tactic(auto)]

ghost use Rattle.std.specs.Prelude.{◌≡◌, ◌≤◌, length};
ghost use Rattle.refusals.specs.Number.{number};
ghost use Rattle.hour.specs.Cause.{no_cause, tested as Cause·tested, below as Cause·below, first_cause, kinds_of, intervals_of, price_cause, row_cause, transaction_cause, share_cause, unshared_cause, surplus_cause, cause_numbers};
ghost use Rattle.hour.specs.Numbers.{as_row, as_transaction};
ghost use Rattle.hour.specs.InsideTold.{part_of, number_of, field_of, told};
ghost use Rattle.hour_cause.specs.Inside.{as_cause};
ghost use Rattle.numbers.specs.Bytes.{encoded};
ghost use Rattle.split.specs.Inside.{Shares};

use hour::{
    Cause, DAY_AHEAD, Place, RowField, RowNumbers, Sizes, TransactionField, TransactionNumbers,
};
use refusals::Refusal;

// The numbers of a cause as they are told: any numbers, whether or not they name a refusal and a place.
#[derive(Clone, Copy)]
pub struct CauseNumbers {
    pub refusal: u32,
    pub part: u32,
    pub number: u32,
    pub field: u32,
    pub found: i64,
    pub least: i64,
    pub most: i64,
}

// Nothing is refused.
fn no_numbers() -> CauseNumbers
    ensures { as_cause result ≡ no_cause }
{
    CauseNumbers {
        refusal: 0,
        part: 0,
        number: 0,
        field: 0,
        found: 0,
        least: 0,
        most: 0,
    }
}

// A number that has to be least to most, where refusal and place are numbers, too.
#[tactic(auto, unfolding(hour::specs::Cause::tested))]
pub fn tested(
    refusal: u32,
    part: u32,
    number: u32,
    field: u32,
    found: i64,
    least: i64,
    most: i64,
) -> CauseNumbers
    ensures { as_cause result ≡ Cause·tested refusal part number field found least most }
{
    if ints::is_between(found, least, most) {
        return no_numbers();
    }
    CauseNumbers {
        refusal,
        part,
        number,
        field,
        found,
        least,
        most,
    }
}

// A number that has to be least to most.
#[tactic(auto, unfolding(hour::specs::Cause::tested))]
pub fn in_range(
    refusal: Refusal,
    place: Place,
    found: i64,
    least: i64,
    most: i64,
) -> Result<(), Cause>
    ensures { told result ≡ Cause·tested (number refusal) (part_of place) (number_of place) (field_of place) found least most }
{
    if ints::is_between(found, least, most) {
        return Ok(());
    }
    Err(Cause {
        refusal,
        place,
        found,
        least,
        most,
    })
}

// A number that has to be below an end, by its 64 bits.
fn below(refusal: Refusal, place: Place, found: u64, end: u64) -> Result<(), Cause>
    requires { (1 ≤ end) × (end ≤ 9223372036854775808) }
    ensures { told result ≡ Cause·below (number refusal) (part_of place) (number_of place) (field_of place) found end }
{
    in_range(
        refusal,
        place,
        numbers::from_word(found),
        0,
        (end - 1) as i64,
    )
}

// How many kinds a market has, and how many intervals.
fn kinds_of(market: u64) -> u64
    ensures { (result ≡ kinds_of market) × (1 ≤ result) × (result ≤ 6) }
{
    if market == u64::from(DAY_AHEAD) { 6 } else { 4 }
}

fn intervals_of(market: u64) -> u64
    ensures { (result ≡ intervals_of market) × (1 ≤ result) × (result ≤ 12) }
{
    if market == u64::from(DAY_AHEAD) {
        1
    } else {
        12
    }
}

// Price j.
pub fn price_cause(j: u32, price: i64) -> Result<(), Cause>
    ensures { told result ≡ price_cause j price }
{
    in_range(
        Refusal::Range,
        Place::Price(j),
        price,
        -5_000_000,
        5_000_000,
    )
}

// Row i of these numbers, with its spare bits.
#[tactic(auto, using(hour::proofs::Told::tests), unfolding(hour::specs::Cause::row_cause))]
pub fn row_cause(sizes: Sizes, i: u32, row: RowNumbers, spare: u64) -> Result<(), Cause>
    ensures { told result ≡ row_cause sizes.participants sizes.locations i (as_row row) spare }
{
    below(
        Refusal::Kind,
        Place::Row(i, RowField::Market),
        row.market,
        2,
    )?;
    below(
        Refusal::Kind,
        Place::Row(i, RowField::Kind),
        row.kind,
        kinds_of(row.market),
    )?;
    below(
        Refusal::Kind,
        Place::Row(i, RowField::Interval),
        row.interval,
        intervals_of(row.market),
    )?;
    below(
        Refusal::Identity,
        Place::Row(i, RowField::Participant),
        row.participant,
        sizes.participants,
    )?;
    below(
        Refusal::Identity,
        Place::Row(i, RowField::Location),
        row.location,
        sizes.locations,
    )?;
    below(
        Refusal::Range,
        Place::Row(i, RowField::Kw),
        row.kw,
        20_000_001,
    )?;
    below(Refusal::File, Place::Row(i, RowField::Spare), spare, 1)
}

// Transaction i of these numbers, with its spare bits.
#[tactic(auto, using(hour::proofs::Told::tests), unfolding(hour::specs::Cause::transaction_cause))]
pub fn transaction_cause(
    sizes: Sizes,
    i: u32,
    transaction: TransactionNumbers,
    spare: u64,
) -> Result<(), Cause>
    ensures { told result ≡ transaction_cause sizes.participants sizes.locations i (as_transaction transaction) spare }
{
    below(
        Refusal::Kind,
        Place::Transaction(i, TransactionField::Market),
        transaction.market,
        2,
    )?;
    below(
        Refusal::Kind,
        Place::Transaction(i, TransactionField::Interval),
        transaction.interval,
        intervals_of(transaction.market),
    )?;
    below(
        Refusal::Identity,
        Place::Transaction(i, TransactionField::Participant),
        transaction.participant,
        sizes.participants,
    )?;
    below(
        Refusal::Identity,
        Place::Transaction(i, TransactionField::Seller),
        transaction.seller,
        sizes.participants,
    )?;
    below(
        Refusal::Identity,
        Place::Transaction(i, TransactionField::Source),
        transaction.source,
        sizes.locations,
    )?;
    below(
        Refusal::Identity,
        Place::Transaction(i, TransactionField::Sink),
        transaction.sink,
        sizes.locations,
    )?;
    below(
        Refusal::Range,
        Place::Transaction(i, TransactionField::Kw),
        transaction.kw,
        20_000_001,
    )?;
    below(
        Refusal::File,
        Place::Transaction(i, TransactionField::Spare),
        spare,
        1,
    )
}

// The first share that is above what a share may be.
fn shares_cause(shares: &[i64]) -> Result<(), Cause>
    requires { length shares.now ≤ 64 }
    ensures { told result ≡ first_cause share_cause 0 shares.now }
{
    for (p, share) in shares.iter().enumerate() {
        in_range(
            Refusal::Surplus,
            Place::Share(p as u32),
            *share,
            0,
            4_000_000_000,
        )?;
    }
    Ok(())
}

// A surplus that nobody has a share of.
#[tactic(auto, unfolding(hour::specs::Cause::unshared_cause))]
fn unshared_cause(surplus: i64, shares: &[i64]) -> Result<(), Cause>
    requires { Shares shares.now }
    ensures { told result ≡ unshared_cause surplus shares.now }
{
    if 0 < split_parts::total_of(shares) {
        return Ok(());
    }
    in_range(Refusal::NoShares, Place::Surplus, surplus, 0, 0)
}

// The surplus, then the shares, then whether there is any.
#[tactic(auto, using(hour::proofs::Told::tests), unfolding(hour::specs::Cause::surplus_cause))]
pub fn surplus_cause(surplus: i64, shares: &[i64]) -> Result<(), Cause>
    requires { length shares.now ≤ 64 }
    ensures { told result ≡ surplus_cause surplus shares.now }
{
    in_range(
        Refusal::Surplus,
        Place::Surplus,
        surplus,
        -1_000_000_000,
        1_000_000_000,
    )?;
    shares_cause(shares)?;
    unshared_cause(surplus, shares)
}

// The numbers of a place: its part, which one of that part, and which field of it.
fn part_of(place: Place) -> u32
    ensures { result ≡ part_of place }
{
    match place {
        Place::File => 1,
        Place::Header(_) => 2,
        Place::Price(_) => 3,
        Place::Row(_, _) => 4,
        Place::Transaction(_, _) => 5,
        Place::Surplus => 6,
        Place::Share(_) => 7,
        Place::List(_) => 8,
    }
}

fn number_of(place: Place) -> u32
    ensures { result ≡ number_of place }
{
    match place {
        Place::Price(i) | Place::Row(i, _) | Place::Transaction(i, _) | Place::Share(i) => i,
        Place::File | Place::Header(_) | Place::Surplus | Place::List(_) => 0,
    }
}

fn field_of(place: Place) -> u32
    ensures { result ≡ field_of place }
{
    match place {
        Place::Header(field) => field as u32,
        Place::Row(_, field) => field as u32,
        Place::Transaction(_, field) => field as u32,
        Place::List(field) => field as u32,
        Place::File | Place::Price(_) | Place::Surplus | Place::Share(_) => 0,
    }
}

// The numbers of a cause, zeros where nothing is refused.
pub fn numbers_of(outcome: Result<(), Cause>) -> CauseNumbers
    ensures { as_cause result ≡ told outcome }
{
    match outcome {
        Ok(()) => no_numbers(),
        Err(cause) => CauseNumbers {
            refusal: u32::from(cause.refusal),
            part: part_of(cause.place),
            number: number_of(cause.place),
            field: field_of(cause.place),
            found: cause.found,
            least: cause.least,
            most: cause.most,
        },
    }
}

// The seven numbers of a cause, written.
pub fn put_cause(cause: CauseNumbers, list: &mut [u8])
    requires { length list.old ≡ 56 }
    ensures { list.new ≡ encoded (cause_numbers (as_cause cause)) }
{
    let seven = [
        i64::from(cause.refusal),
        i64::from(cause.part),
        i64::from(cause.number),
        i64::from(cause.field),
        cause.found,
        cause.least,
        cause.most,
    ];
    numbers::write_all(&seven, list);
}
