// The list of records that a caller lends: records that stand as numbers are written into it from its front.
ghost use Rattle.std.specs.Prelude.{◌≡◌, ◌++◌, ℕ, ◌≤◌, ◌<◌, length, drop, replicate};
ghost use Rattle.rules.specs.Basics.{list_to};
ghost use Rattle.rules.specs.Sizes.{most_lines};
ghost use Rattle.rules.specs.Effects.{no_record};
ghost use Rattle.ledger.specs.RecordNumbers.{record_at, RecordPlaces};

use crate::lines::line_in;
use crate::rounds::{BALANCE_PLACE, MOVED_PLACE};
use rules::{Line, MOST_LINES, RECORD_SIZE, Record};

// The record that stands at place `i` of a list of numbers.
#[tactic(auto, unfolding(crate::specs::RecordNumbers::record_at))]
pub fn record_at(numbers: &[i64], i: usize) -> Record
    requires { RecordPlaces numbers.now i }
    ensures { result ≡ record_at numbers.now i }
{
    let at = i * RECORD_SIZE;
    Record {
        kind: numbers[at] as u64,
        supplier: numbers[at + 1] as u64,
        element: numbers[at + 2] as u64,
        moved: line_in(numbers, at + MOVED_PLACE),
        balance: line_in(numbers, at + BALANCE_PLACE),
    }
}

// The first `count` records, at the front of the list; entries past them stay as lent. Linear in them.
pub fn put_list(list: &mut [Record], numbers: &[i64], count: usize)
    requires { (count ≤ length list.old) × ((i : ℕ) → i < count → RecordPlaces numbers.now i) }
    ensures { list.new ≡ list_to (record_at numbers.now) count ++ drop count list.old }
{
    for i in 0..count {
        list[i] = record_at(numbers, i);
    }
}

// The first `count` records as a list of 1,024 structs; entries past them are zeros. For callers that print a round's records, or pass them
// on, and lend no list of their own. Linear in the list.
pub fn listed(numbers: &[i64], count: usize) -> [Record; MOST_LINES]
    requires { (count ≤ most_lines) × ((i : ℕ) → i < count → RecordPlaces numbers.now i) }
    ensures { result ≡ list_to (record_at numbers.now) count ++ drop count (replicate most_lines no_record) }
{
    let line = Line {
        quantity: 0,
        kroner: 0,
        billionths: 0,
    };
    let mut list = [Record {
        kind: 0,
        supplier: 0,
        element: 0,
        moved: line,
        balance: line,
    }; MOST_LINES];
    put_list(&mut list, numbers, count);
    list
}
