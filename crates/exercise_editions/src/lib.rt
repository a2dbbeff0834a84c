// The editions of the exercise file (document 02, ticket 2): which one a number names, and how many bytes, and numbers in a list, a transaction of it has.
#![tactic(auto)]

ghost use Rattle.std.specs.Prelude.{◌≡◌, ◌≤◌};
ghost use Rattle.exercise.specs.Inside.{item_size, item_length};
ghost use Rattle.exercise.specs.Layout.{transaction_size, edition_of};
ghost use Rattle.exercise.specs.Lists.{transaction_length};

use exercise::Item;
use hour::Edition;

// The edition of a number. One that is neither 0 nor 1 is refused elsewhere, in its place in the order, so that there is nothing to refuse here.
pub fn edition_of(number: u64) -> Edition
    ensures { result ≡ edition_of number }
{
    if number == 0 {
        return Edition::PathOnly;
    }
    Edition::WithSeller
}

// How many bytes a transaction has.
pub fn transaction_size(edition: Edition) -> usize
    ensures { (result ≡ transaction_size edition) × (result ≤ 7) }
{
    match edition {
        Edition::PathOnly => 6,
        Edition::WithSeller => 7,
    }
}

// How many numbers a transaction has in a list.
pub fn transaction_length(edition: Edition) -> usize
    ensures { (result ≡ transaction_length edition) × (result ≤ 7) }
{
    match edition {
        Edition::PathOnly => 6,
        Edition::WithSeller => 7,
    }
}

// How many bytes an item has.
pub fn item_size(item: Item) -> usize
    ensures { (result ≡ item_size item) × (result ≤ 7) }
{
    match item {
        Item::Row => 6,
        Item::Transaction(edition) => transaction_size(edition),
    }
}

// How many numbers it has in a list.
pub fn item_length(item: Item) -> usize
    ensures { (result ≡ item_length item) × (result ≤ 7) }
{
    match item {
        Item::Row => 6,
        Item::Transaction(edition) => transaction_length(edition),
    }
}
