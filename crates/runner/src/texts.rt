// What a message prints.
ghost use Rattle.std.specs.Prelude.{◌≡◌, ℕ, ◌+◌, ◌*◌, ◌≤◌, ◌<◌, length};
ghost use Rattle.rules.specs.Basics.{list_to};
ghost use Rattle.ledger.specs.RecordNumbers.{record_at, RecordPlaces};
ghost use Rattle.settlement.specs.Replies.{count_of};
ghost use Rattle.file.specs.Lines.{longest_line, Written};
ghost use Rattle.file.specs.Program.{settle_records, record_lines};
ghost use Rattle.runner.specs.Texts.{longest_text, reply_text};

use file::output::{put_record, put_refused};
use ledger::records::listed;
use rules::Refusal;

// The lines of the first `count` records, which stand as numbers and go through a list of record structs. Linear in that list.
fn put_records(records: &[i64], count: usize, out: &mut [u8], from: usize) -> usize
    requires count_le_settle_records { (count ≤ settle_records) × ((i : ℕ) → i < count → RecordPlaces records.now i) }
    requires longest_line_in_bounds { from + count * longest_line ≤ length out.old }
    ensures { Written (count * longest_line) out.old out.new from result (record_lines (list_to (record_at records.now) count)) }
{
    let list = listed(records, count);
    let mut written = from;
    for record in &list[..count] {
        written = put_record(out, written, *record);
    }
    written
}

// The records of a message that is accepted, or its refusal. A message without records lays out no list.
pub fn put_reply(
    reply: Result<usize, Refusal>,
    message: u64,
    records: &[i64],
    out: &mut [u8],
    from: usize,
) -> usize
    requires count_le_settle_records { (count_of reply ≤ settle_records) × ((i : ℕ) → i < count_of reply → RecordPlaces records.now i) }
    requires longest_text_in_bounds { from + longest_text ≤ length out.old }
    ensures { Written longest_text out.old out.new from result (reply_text reply message records.now) }
{
    match reply {
        Ok(0) => from,
        Ok(count) => put_records(records, count, out, from),
        Err(refusal) => put_refused(out, from, message, refusal.number()),
    }
}
