// The rows and transactions of an hour in lists of numbers, eight bytes a number (document 02, tickets 1 and 2), as they are handed over: nothing is tested here.
// A path and a sale are read by two functions: they differ in the seller, too, and one function would choose every place by the edition.
#![tactic(auto)]

ghost use Rattle.std.specs.Prelude.{◌≡◌, ◌+◌, ◌*◌, ◌≤◌, length};
ghost use Rattle.exercise.specs.Lists.{row_given, transaction_length, transaction_given};
ghost use Rattle.hour.specs.Numbers.{as_row, as_transaction};
ghost use Rattle.hour.specs.declared.Edition.TheVariants.{PathOnly, WithSeller};

use hour::{Edition, RowNumbers, TransactionNumbers};

// Row i of a list.
pub fn row_given(list: &[u8], i: usize) -> RowNumbers
    requires { 48 * i + 48 ≤ length list.now }
    ensures { as_row result ≡ row_given list.now i }
{
    RowNumbers {
        market: numbers::word_at(list, 6 * i),
        kind: numbers::word_at(list, 6 * i + 1),
        interval: numbers::word_at(list, 6 * i + 2),
        participant: numbers::word_at(list, 6 * i + 3),
        location: numbers::word_at(list, 6 * i + 4),
        kw: numbers::word_at(list, 6 * i + 5),
    }
}

// Transaction i of a list, where it is a path alone.
fn path_given(list: &[u8], i: usize) -> TransactionNumbers
    requires { 48 * i + 48 ≤ length list.now }
    ensures { as_transaction result ≡ transaction_given PathOnly list.now i }
{
    TransactionNumbers {
        market: numbers::word_at(list, 6 * i),
        interval: numbers::word_at(list, 6 * i + 1),
        participant: numbers::word_at(list, 6 * i + 2),
        seller: 0,
        source: numbers::word_at(list, 6 * i + 3),
        sink: numbers::word_at(list, 6 * i + 4),
        kw: numbers::word_at(list, 6 * i + 5),
    }
}

// Transaction i of a list, where it has a seller.
fn sale_given(list: &[u8], i: usize) -> TransactionNumbers
    requires { 56 * i + 56 ≤ length list.now }
    ensures { as_transaction result ≡ transaction_given WithSeller list.now i }
{
    TransactionNumbers {
        market: numbers::word_at(list, 7 * i),
        interval: numbers::word_at(list, 7 * i + 1),
        participant: numbers::word_at(list, 7 * i + 2),
        seller: numbers::word_at(list, 7 * i + 3),
        source: numbers::word_at(list, 7 * i + 4),
        sink: numbers::word_at(list, 7 * i + 5),
        kw: numbers::word_at(list, 7 * i + 6),
    }
}

// Transaction i of a list, of either edition.
pub fn transaction_given(edition: Edition, list: &[u8], i: usize) -> TransactionNumbers
    requires { 8 * (transaction_length edition * i + transaction_length edition) ≤ length list.now }
    ensures { as_transaction result ≡ transaction_given edition list.now i }
{
    match edition {
        Edition::PathOnly => path_given(list, i),
        Edition::WithSeller => sale_given(list, i),
    }
}
