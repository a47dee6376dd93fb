// The run of the program `settle` over input bytes, one field at a time: document 01, "File and program". The tables are lent at the
// program's own sizes; a book uses the fronts of them.
#![tactic(auto)]

ghost use Rattle.std.specs.Prelude.{◌≡◌, true, ℕ, ◌+◌, ◌*◌, ◌≤◌, length, take, drop};
ghost use Rattle.rules.specs.Sizes.{record_size};
ghost use Rattle.rules.specs.Lent.{Lists, given};
ghost use Rattle.file.specs.Program.{settle_records};
ghost use Rattle.runner.specs.Stages.{Stage, start};
ghost use Rattle.runner.specs.Parts.{lists_in, Stocked, SameSlices};
ghost use Rattle.runner.specs.Texts.{longest_text};
ghost use Rattle.runner.specs.Holding.{Represents, Stands, may_come, Stepped, Reached, Stopped};

pub mod fields;
pub mod parts;
pub mod texts;

use crate::fields::{gather, take_message, take_month};
use crate::parts::Store;
use file::output::LONGEST_LINE;
use rules::{Book, MOST_LINES};

// Room for the longest text of a field: a line for each record of a round.
pub const LONGEST_TEXT: usize = MOST_LINES * LONGEST_LINE;

// How far a run has come: what may come next.
#[derive(Clone, Copy)]
pub enum Progress {
    // the month
    Start,
    // an element, or what opens the book: the month, and how many element fields have come, at most 65
    Elements { book: Book },
    // a message of the open book, and its number
    Messages { book: Book, number: u64 },
    // nothing: the run is over
    Over,
}

impl Progress {
    // The run is not over, and there is a message number behind the next.
    fn may_come(self) -> bool
        ensures { result ≡ may_come self }
    {
        match self {
            Progress::Messages { number, .. } => number < u64::MAX,
            Progress::Over => false,
            _ => true,
        }
    }
}

// ---- one field

// What a field that was taken leaves.
#[derive(Clone, Copy)]
pub struct Advanced {
    pub progress: Progress,
    // the place that the run goes on from
    pub next: usize,
    // the place behind what was written
    pub written: usize,
}

// Before the first field.
pub fn begin() -> Progress
    ensures { (t : Lists) → Represents result t start }
{
    Progress::Start
}

// Takes the field at a place of the bytes in hand, and puts what it prints at a place of the output; where the bytes in hand end within the
// field, nothing is done. `ended` says whether the input ends with those bytes, and only that. The caller sees to it that the run is not
// over and that there is a next message number. The records of a round are lent as numbers.
pub fn advance(
    progress: Progress,
    s: &[u8],
    at: usize,
    ended: bool,
    store: &mut Store,
    out: &mut [u8],
    from: usize,
) -> Option<Advanced>
    requires sized { Stocked store.old }
    requires stands { Stands progress (lists_in store.old) }
    requires goes_on { (may_come progress ≡ true) × (at ≤ length s.now) }
    requires room { from + longest_text ≤ length out.old }
    ensures same { SameSlices store.old store.new }
    ensures sized { Stocked store.new }
    ensures steps { let t = lists_in store.old in
        (stage : Stage) → Represents progress t stage
        → Stepped stage s.now at ended result t (lists_in store.new) out.old out.new from }
{
    match progress {
        Progress::Start => take_month(s, at, ended, out, from),
        Progress::Elements { book } => gather(book, s, at, ended, store, out, from),
        Progress::Messages { book, number } => take_message(
            book, number, s, at, ended, store, out, from,
        ),
        Progress::Over => unreachable!(),
    }
}

// ---- the run

// How far a call of `run` has come.
#[derive(Clone, Copy)]
pub struct Ran {
    pub progress: Progress,
    // the place of the input that the run goes on from
    pub next: usize,
    // how many bytes of the output are written
    pub written: usize,
    // more bytes are needed; each other field means the same either way, so that an enum would be no plainer
    pub waits: bool,
}

// Takes one field after the other, from a place of the bytes in hand on; the text stands at the front of the output, and what is behind it
// stays. It stops where the run is over, where more bytes are needed, where the output has no room for the longest text of a field, or
// after the last message number.
pub fn run(
    progress: Progress,
    s: &[u8],
    at: usize,
    ended: bool,
    store: &mut Store,
    out: &mut [u8],
) -> Ran
    requires sized { Stocked store.old }
    requires stands { Stands progress (lists_in store.old) }
    requires at_in_bounds { at ≤ length s.now }
    ensures same { SameSlices store.old store.new }
    ensures sized { Stocked store.new }
    ensures reached { (stage : Stage) → Represents progress (lists_in store.old) stage
        → Reached ended stage (drop at s.now) (take result.written out.new) result.progress (lists_in store.new)
        (drop result.next s.now) }
    ensures stopped { Stopped s.now ended out.old out.new result }
{
    let mut p = progress;
    let mut place = at;
    let mut written = 0;
    // not a `for`: what was read decides how often it turns
    while p.may_come() && LONGEST_TEXT <= out.len() - written {
        let Some(advanced) = advance(p, s, place, ended, store, out, written) else {
            return Ran {
                progress: p,
                next: place,
                written,
                waits: true,
            };
        };
        p = advanced.progress;
        place = advanced.next;
        written = advanced.written;
    }
    Ran {
        progress: p,
        next: place,
        written,
        waits: false,
    }
}
