// A list of messages, taken one after the other by the entry point: the run that demand 3 speaks of; and the same from an opening.
#![tactic(auto)]

ghost use Rattle.std.specs.Prelude.{◌≡◌, length, ◌/◌, ◌<◌, min};
ghost use Rattle.rules.specs.Answers.{number_of};
ghost use Rattle.rules.specs.Lent.{open_world, SameLent};
ghost use Rattle.settlement.specs.Replies.{count_of};
ghost use Rattle.settlement_book.specs.Numbers.{fields_size};
ghost use Rattle.history.specs.Runs.{fields_at, messages_of, Followed};
ghost use Rattle.history.specs.FromOpening.{OpensAndRuns};

use rules::{Fields, OpenBook, RECORD_SIZE, Refusal};
use settlement_book::numbers::{FIELDS_SIZE, fields_of};
use settlement_book::{message, open_book};

// The message at a place of the list.
fn fields_at(inputs: &[u64], i: usize) -> Fields
    requires { i < length inputs.now / fields_size }
    ensures { result ≡ fields_at inputs.now i }
{
    let at = i * FIELDS_SIZE;
    fields_of(&inputs[at..at + FIELDS_SIZE])
}

// The messages of a list of numbers, in order: as many as there are whole, and as there are places for their answers. How many records
// there are. Each message is lent the part of the list behind the records that are there already, so that the records of all accepted
// rounds stand one behind the other at its front. Cost: as for `message`, for each.
pub fn run(opened: &mut OpenBook, records: &mut [i64], inputs: &[u64], answers: &mut [u64]) -> usize
    ensures same { SameLent opened.old opened.new }
    ensures followed { Followed (open_world opened.old) (open_world opened.new)
        (messages_of inputs.now (min (length inputs.now / fields_size) (length answers.old)))
        result records.old records.new answers.old answers.new }
{
    let n = (inputs.len() / FIELDS_SIZE).min(answers.len());
    let mut count = 0;
    // a chain over `answers.iter_mut()` would not say what the answers before are, so the places are counted
    for i in 0..n {
        let from = count * RECORD_SIZE;
        let reply = message(opened, &mut records[from..], fields_at(inputs, i));
        answers[i] = match reply {
            Ok(written) => {
                count += written;
                0
            }
            Err(refusal) => refusal.number(),
        };
    }
    count
}

// Opens the month that `opened.book` names in the tables, and runs the messages of a list over it: how many records there are, or the
// opening's refusal. Cost: as for the opening and for `run`.
pub fn open_and_run(
    opened: &mut OpenBook,
    records: &mut [i64],
    inputs: &[u64],
    answers: &mut [u64],
) -> Result<usize, Refusal>
    ensures same { SameLent opened.old opened.new }
    ensures runs { OpensAndRuns (open_world opened.old) (open_world opened.new)
        (messages_of inputs.now (min (length inputs.now / fields_size) (length answers.old)))
        (number_of result) (count_of result) records.old records.new answers.old answers.new }
{
    open_book(opened)?;
    Ok(run(opened, records, inputs, answers))
}
