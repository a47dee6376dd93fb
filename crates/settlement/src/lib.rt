// A message of a book that is well formed: questions 6 to 18, what it changes, and the records of a round.
#![tactic(auto)]

ghost use Rattle.std.specs.Prelude.{◌≡◌, true, false, ◌&&◌, take, ◌*◌};
ghost use Rattle.rules.specs.declared.Body.TheVariants.{Reading};
ghost use Rattle.rules.specs.Answers.{number_of};
ghost use Rattle.rules.specs.Basics.{all_to};
ghost use Rattle.rules.specs.Sizes.{line_size};
ghost use Rattle.rules.specs.WellFormed.{rows_fit, line_right};
ghost use Rattle.rules.specs.Effects.{told, is_round, writes_row};
ghost use Rattle.rules.specs.Whole.{Whole};
ghost use Rattle.rules.specs.Lent.{lent_opening, lent_tables, open_world, SameLent};
ghost use Rattle.tables.specs.Order.{TableRows};
ghost use Rattle.ledger.specs.Added.{added_lines, quantities_of, amounts_of, Changes};
ghost use Rattle.ledger.specs.Moved.{lines_in, Settled};
ghost use Rattle.recording.specs.Recorded.{RowFits};
ghost use Rattle.settlement.specs.Replies.{ReadyIn, Applied, Sending, Replied};

use facts::link_ends;
use ledger::lines::{commit_lines, lines_fit};
use ledger::rounds::{moved_count, next_round, send_lines};
use metering::{NewReading, settle_reading};
use posting::post;
use pricing::Charge;
use recording::messages::{rows_fit_after, write_block, write_reading, write_rows};
use rules::{Body, Fields, Lent, MOST_LINES, OpenBook, RECORD_SIZE, Refusal};
use std::mem;
use validation::fields::understand;
use validation::questions::decide;

// Question 17: do the rows fit their tables afterwards, and the lines their bounds. Cost: linear in the lines, logarithmic in the rows.
fn is_fitting(lent: &Lent, changes: &[Charge], body: Body) -> bool
    requires table_rows { TableRows lent.now.book lent.now.links.now lent.now.holders.now lent.now.states.now }
    requires row_fits { RowFits (take lent.now.book.periods lent.now.links.now) body }
    requires changes { Changes lent.now.lines.now (quantities_of changes.now) (amounts_of changes.now) (lines_in lent.now.book) }
    ensures { let after = added_lines lent.now.lines.now (quantities_of changes.now) (amounts_of changes.now) (lines_in lent.now.book) in
        result ≡ (rows_fit (told (lent_opening lent.now) (lent_tables lent.now) body)
        && all_to (λ k. line_right after (k * line_size)) (lines_in lent.now.book)) }
{
    let count = (lent.book.suppliers * lent.book.elements) as usize;
    rows_fit_after(lent, body) && lines_fit(lent.lines, changes, count)
}

// Messages 1 to 5: the changes of the lines, question 17, then rows and lines. Cost: linear in the lines, the point's rows and the days of
// the month, and in the rows behind the place of a new one.
fn apply_lines(opened: &mut OpenBook, body: Body) -> Result<(), Refusal>
    requires ready_in { ReadyIn (open_world opened.old) body }
    requires body_value { writes_row body ≡ true }
    ensures same { SameLent opened.old opened.new }
    ensures applied { Applied (open_world opened.old) (open_world opened.new) body (number_of result) }
{
    // first of all: behind other work the compiler would clear them twice
    let mut changes = [Charge {
        quantity: 0,
        amount: 0,
    }; MOST_LINES];
    let lent = opened.lent();
    let ends = link_ends(&lent, body);
    post(&mut changes, &lent, body, ends);
    if !is_fitting(&lent, &changes, body) {
        return Err(Refusal::TableFull);
    }
    let count = (lent.book.suppliers * lent.book.elements) as usize;
    write_rows(opened, body, ends);
    commit_lines(opened.lines, &changes, count);
    Ok(())
}

// Message 6: question 17 of the lines of the supplier who pays, then those lines and the reading. Cost: linear in the point's rows,
// logarithmic in the other rows.
fn apply_reading(opened: &mut OpenBook, new: NewReading) -> Result<(), Refusal>
    requires { ReadyIn (open_world opened.old) (Reading new.point new.day new.hour new.energy) }
    ensures same { SameLent opened.old opened.new }
    ensures applied { let body = Reading new.point new.day new.hour new.energy in
        Applied (open_world opened.old) (open_world opened.new) body (number_of result) }
{
    // the lines are written while all else that is lent is read
    let lines = mem::take(&mut opened.lines);
    let fits = settle_reading(lines, &opened.lent(), new);
    opened.lines = lines;
    if !fits {
        return Err(Refusal::TableFull);
    }
    write_reading(opened, new.point, new.day, new.hour, new.energy);
    Ok(())
}

// Messages 1 to 7, which are no round. Cost: as above.
fn apply(opened: &mut OpenBook, body: Body) -> Result<(), Refusal>
    requires ready_in { ReadyIn (open_world opened.old) body }
    requires body_value { is_round body ≡ false }
    ensures same { SameLent opened.old opened.new }
    ensures applied { Applied (open_world opened.old) (open_world opened.new) body (number_of result) }
{
    match body {
        Body::Reading {
            point,
            day,
            hour,
            energy,
        } => apply_reading(
            opened,
            NewReading {
                point,
                day,
                hour,
                energy,
            },
        ),
        Body::Block { point, blocked } => {
            write_block(opened, point, blocked);
            Ok(())
        }
        _ => apply_lines(opened, body),
    }
}

// Message 8: question 18 of the room for records, then the records, what is sent and the kind of the next round. Linear in the lines.
// Not inlined into the other messages, among which its loops would lie worse.
#[inline(never)]
fn send(opened: &mut OpenBook, records: &mut [i64]) -> Result<usize, Refusal>
    requires { Settled opened.old.book opened.old.lines.now opened.old.sent.now }
    ensures same { SameLent opened.old opened.new }
    ensures sending { Sending (open_world opened.old) (open_world opened.new) result records.old records.new }
{
    let book = opened.book;
    let lent = opened.lent();
    let count = moved_count(book, lent.lines, lent.sent);
    if count > records.len() / RECORD_SIZE {
        return Err(Refusal::ListFull);
    }
    let sent = mem::take(&mut opened.sent);
    send_lines(book, opened.lent().lines, sent, records);
    opened.sent = sent;
    opened.book.round = next_round(book.round);
    Ok(count)
}

// A message of a book that is well formed, and stays so; nine numbers for each record of the list, and how many records there are. A
// refusal leaves book, tables and list as they were. Cost: of a round linear in the lines; of another message as above.
pub fn message(opened: &mut OpenBook, records: &mut [i64], fields: Fields) -> Result<usize, Refusal>
    requires { Whole (open_world opened.old) }
    ensures same { SameLent opened.old opened.new }
    ensures replied { Replied (open_world opened.old) (open_world opened.new) fields result records.old records.new }
    ensures whole { Whole (open_world opened.new) }
{
    let message = understand(opened.book.suppliers, fields).ok_or(Refusal::OutOfRange)?;
    decide(&opened.lent(), message)?;
    match message.body {
        Body::Round => send(opened, records),
        body => {
            apply(opened, body)?;
            Ok(0)
        }
    }
}
