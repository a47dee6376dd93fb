// A round: how many lines have moved from what was sent, their records as numbers, and what is sent and next afterwards.
ghost use Rattle.std.specs.Prelude.{◌≡◌, false, ◌+◌, ◌*◌, ◌≤◌, ◌<◌, min, length};
ghost use Rattle.std.proofs.lemmas.List.Edits.{sets};
ghost use Rattle.rules.specs.Sizes.{line_size, most_lines, record_size, last_round};
ghost use Rattle.rules.specs.Lines.{Measure};
ghost use Rattle.ledger.specs.Bounds.{LineOf, moved_quantity, moved_kroner};
ghost use Rattle.ledger.specs.RecordNumbers.{SmallRecord, record_numbers, numbers_after};
ghost use Rattle.ledger.specs.Moved.{moved_by, unmoved_at, lines_in, line_record, line_records, moved_count, line_copied};
ghost use Rattle.ledger.specs.Moved.{Comparable, Settled, Sendable, LineSent};

use crate::lines::{line_at, line_difference};
use rules::{Book, LAST_ROUND, LINE_SIZE, Line, RECORD_SIZE, Record};

// Whether the line from place `at` on is what was sent: an amount has one form, so that the three numbers are compared.
fn is_unmoved(lines: &[i64], sent: &[i64], at: usize) -> bool
    requires { Comparable lines.now sent.now at }
    ensures { result ≡ unmoved_at lines.now sent.now at }
{
    lines[at] == sent[at] && lines[at + 1] == sent[at + 1] && lines[at + 2] == sent[at + 2]
}

// How many lines have moved, and so how many records a round has. Linear in the lines.
pub fn moved_count(book: Book, lines: &[i64], sent: &[i64]) -> usize
    requires { Settled book lines.now sent.now }
    ensures { result ≡ moved_count lines.now sent.now (lines_in book) }
{
    let count = (book.suppliers * book.elements) as usize;
    let mut n = 0;
    for k in 0..count {
        n += usize::from(!is_unmoved(lines, sent, k * LINE_SIZE));
    }
    n
}

// ---- the records as numbers

// How far the line from place `at` on has moved.
fn moved_by(lines: &[i64], sent: &[i64], at: usize) -> Line
    requires { Comparable lines.now sent.now at }
    ensures { LineOf result
        (moved_by lines.now sent.now Measure.quantity at) (moved_by lines.now sent.now Measure.amount at)
        moved_quantity moved_kroner }
{
    line_difference(line_at(lines, at), line_at(sent, at))
}

// The record of line number `k`.
fn record_of(book: Book, lines: &[i64], sent: &[i64], k: usize) -> Record
    requires { Sendable book lines.now sent.now k }
    ensures { SmallRecord result × (result ≡ line_record book lines.now sent.now k) }
{
    let at = k * LINE_SIZE;
    let number = k as u64;
    Record {
        kind: book.round,
        supplier: number / book.elements + 1,
        element: number % book.elements,
        moved: moved_by(lines, sent, at),
        balance: line_at(lines, at),
    }
}

// Where the difference and the balance begin among a record's numbers.
pub const MOVED_PLACE: usize = 3;

pub const BALANCE_PLACE: usize = MOVED_PLACE + LINE_SIZE;

// One record's numbers, from place `at` on.
fn put_record(out: &mut [i64], at: usize, r: Record)
    requires { SmallRecord r × (at + record_size ≤ length out.old) }
    ensures { out.new ≡ sets out.old at (record_numbers r) }
{
    out[at..at + RECORD_SIZE].copy_from_slice(&[
        r.kind as i64,
        r.supplier as i64,
        r.element as i64,
        r.moved.quantity,
        r.moved.kroner,
        r.moved.billionths as i64,
        r.balance.quantity,
        r.balance.kroner,
        r.balance.billionths as i64,
    ]);
}

// ---- a round

// The three numbers of the line from place `at` on are what was sent.
fn copy_line(lines: &[i64], sent: &mut [i64], at: usize)
    requires { (at + 2 < length lines.now) × (at + 2 < length sent.old) }
    ensures { sent.new ≡ line_copied lines.now sent.old at }
{
    sent[at..at + LINE_SIZE].copy_from_slice(&lines[at..at + LINE_SIZE]);
}

// Line number `k` of a round: where it has moved, its record goes to place `n` of the list, and it is what was sent. The next free place.
fn send_line(
    book: Book,
    lines: &[i64],
    sent: &mut [i64],
    records: &mut [i64],
    k: usize,
    n: usize,
) -> usize
    requires sendable { Sendable book lines.now sent.old k }
    requires n_le_most_lines { (n ≤ most_lines)
        × (unmoved_at lines.now sent.old (k * line_size) ≡ false → (n + 1) * record_size ≤ length records.old) }
    ensures { LineSent book lines.now sent.old sent.new k n result records.old records.new }
{
    let at = k * LINE_SIZE;
    if is_unmoved(lines, sent, at) {
        return n;
    }
    put_record(records, n * RECORD_SIZE, record_of(book, lines, sent, k));
    copy_line(lines, sent, at);
    n + 1
}

// Every record of a round stands at the front of the list, and the lines are what was sent. Linear in the lines.
pub fn send_lines(book: Book, lines: &[i64], sent: &mut [i64], records: &mut [i64])
    requires settled { Settled book lines.now sent.old }
    requires record_size_in_bounds { moved_count lines.now sent.old (lines_in book) * record_size ≤ length records.old }
    ensures sent { sent.new ≡ lines.now }
    ensures records { records.new ≡ numbers_after (line_records book lines.now sent.old (lines_in book)) records.old }
{
    let count = (book.suppliers * book.elements) as usize;
    let mut n = 0;
    for k in 0..count {
        n = send_line(book, lines, sent, records, k, n);
    }
}

// The kind of the round after one of this kind: 1 fixing, 2 refixing, 3 any later.
pub fn next_round(round: u64) -> u64
    requires { (1 ≤ round) × (round ≤ last_round) }
    ensures { result ≡ min last_round (round + 1) }
{
    LAST_ROUND.min(round + 1)
}
