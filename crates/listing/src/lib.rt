// The entry point for messages that is lent a list of records: the message is taken with its records as numbers, and they are written to
// the front of the list.
#![tactic(auto)]

ghost use Rattle.std.specs.Prelude.{◌≡◌, ◌*◌, length};
ghost use Rattle.rules.specs.Sizes.{most_lines, record_size};
ghost use Rattle.rules.specs.Lent.{open_world, SameLent};
ghost use Rattle.listing.specs.Listed.{Numbered, Listed};

use ledger::records::put_list;
use rules::{Fields, MOST_LINES, OpenBook, RECORD_NUMBERS, RECORD_SIZE, Record, Refusal};

// A message of any book and any tables where a list has room for so many records: they stand as numbers at the front of `numbers`. A round
// has at most as many records as a book has lines. Cost: as for `settlement_book::message`.
fn message_numbers(
    opened: &mut OpenBook,
    numbers: &mut [i64],
    room: usize,
    fields: Fields,
) -> Result<usize, Refusal>
    requires { length numbers.old ≡ most_lines * record_size }
    ensures same { SameLent opened.old opened.new }
    ensures numbered { Numbered (open_world opened.old) (open_world opened.new) fields result room numbers.new }
{
    let end = room.min(MOST_LINES) * RECORD_SIZE;
    settlement_book::message(opened, &mut numbers[..end], fields)
}

// A message of any book and any tables: questions 2 to 18, and how many records stand at the front of the list. A refusal leaves book,
// tables and list as they were. Cost: as for `settlement_book::message`.
pub fn message(
    opened: &mut OpenBook,
    records: &mut [Record],
    fields: Fields,
) -> Result<usize, Refusal>
    ensures same { SameLent opened.old opened.new }
    ensures listed { Listed (open_world opened.old) (open_world opened.new) fields result records.old records.new }
{
    let mut numbers = [0i64; RECORD_NUMBERS];
    let count = message_numbers(opened, &mut numbers, records.len(), fields)?;
    put_list(records, &numbers, count);
    Ok(count)
}
