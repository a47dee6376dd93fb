// `settle` reads a month's file from standard input and prints the book's line, its records and its refusals. The input comes in pieces
// through one buffer. What happens between a read and a write is one function, `turn`; `run_session` reads, makes a turn and writes until
// the run is over.
#![tactic(auto)]

ghost use Rattle.std.specs.Prelude.{◌≡◌, ⊤, ℕ, List, ◌-◌, ◌+◌, ◌*◌, ◌≤◌, ◌<◌, length, take, Some, Result, MatchResult, OnOk};
ghost use Rattle.std.specs.Io.KnownBytes.{Appends, Keeps};
ghost use Rattle.calendar.specs.Gregorian.{longest_month};
ghost use Rattle.rules.specs.Sizes.{hour_places, record_size};
ghost use Rattle.rules.specs.Lent.{Lists};
ghost use Rattle.file.specs.Program.{settle_records, settle_points, settled};
ghost use Rattle.runner.specs.Parts.{lists_in, Stocked, SameSlices};
ghost use Rattle.runner.specs.Texts.{longest_text, last_number};
ghost use Rattle.settle.specs.Sessions.{is_last, next_after, Received, buffer_size, Lent};
ghost use Rattle.settle.specs.Sessions.{Turns, Begun, status_of, failure_status, Ended, Carried};

use rules::{PLACES, RECORD_NUMBERS};
use runner::parts::{
    BLOCK_PLACES, DATA_PLACES, LINE_TABLE_PLACES, PRICE_TABLE_PLACES, READING_PLACES, Store,
};
use runner::{LONGEST_TEXT, Progress, begin, run};
use std::io::{Input as ReadsInput, Read, Write, writer};
use streams::{read_some, write_whole};

// What the next turn begins with.
#[derive(Clone, Copy)]
pub enum Next {
    // a read: more bytes are needed
    Read,
    // the bytes in hand
    Held,
    // the bytes in hand, with which the input ends
    Last,
}

impl Next {
    fn is_last(self) -> bool
        ensures { result ≡ is_last self }
    {
        matches!(self, Next::Last)
    }

    // What the turn after this one begins with.
    fn after(self, waits: bool) -> Next
        ensures { result ≡ next_after self waits }
    {
        if waits {
            return Next::Read;
        }
        match self {
            Next::Last => Next::Last,
            _ => Next::Held,
        }
    }
}

// How far a session has come between two turns.
#[derive(Clone, Copy)]
pub struct Session {
    pub progress: Progress,
    // how many bytes at the front of the buffer are still to be taken
    pub held: usize,
    pub next: Next,
}

// What a turn leaves: the session, and how many bytes of the output are to be written.
#[derive(Clone, Copy)]
pub struct Turned {
    pub session: Session,
    pub written: usize,
}

// Why a session has ended before its run was over.
#[derive(Clone, Copy)]
pub enum Failure {
    // the output could not be written
    Unwritten,
    // the input could not be read
    Unread,
    // as many turns were made as a number of 64 bits counts: a proved loop has to end, and nothing says that the input does
    Unfinished,
}

impl Failure {
    fn status(self) -> u8
        ensures { result ≡ failure_status self }
    {
        match self {
            Failure::Unwritten => 1,
            Failure::Unread => 2,
            Failure::Unfinished => 3,
        }
    }
}

// ---- a turn

// All that happens between a read and a write: the bytes in hand are run, what is printed for them stands at the front of the output, and
// the bytes that are still to be taken come to the front of the buffer.
pub fn turn(session: Session, buffer: &mut [u8], store: &mut Store, out: &mut [u8]) -> Turned
    requires lent { Lent session store.old buffer.old }
    requires room { longest_text ≤ length out.old }
    ensures same { SameSlices store.old store.new }
    ensures stocked { Stocked store.new }
    ensures turns { Turns session (lists_in store.old) buffer.old result (lists_in store.new) buffer.new out.new }
{
    let ended = session.next.is_last();
    let ran = run(
        session.progress,
        &buffer[..session.held],
        0,
        ended,
        store,
        out,
    );
    buffer.copy_within(ran.next..session.held, 0);
    Turned {
        session: Session {
            progress: ran.progress,
            held: session.held - ran.next,
            next: session.next.after(ran.waits),
        },
        written: ran.written,
    }
}

// ---- the input and the output

// Where the session asks for more bytes, one read puts them behind those in hand; where it fails, the program says so.
fn read_on<E: Eprint, R: Read>(
    rt: &E,
    reader: &mut R,
    session: Session,
    buffer: &mut [u8],
) -> Result<Session, Failure>
    requires { session.held ≤ length buffer.old }
    ensures front { take session.held buffer.new ≡ take session.held buffer.old }
    ensures read { MatchResult result
        (λ s. Received (R.remaining reader.old) (R.remaining reader.new) session buffer.new s)
        (λ f. (f ≡ Failure.Unread) × (session.next ≡ Next.Read) × Keeps (R.remaining reader.old) (R.remaining reader.new)) }
{
    let Next::Read = session.next else {
        return Ok(session);
    };
    match read_some(reader, &mut buffer[session.held..]) {
        Ok(count) => Ok(Session {
            held: session.held + count,
            next: if count == 0 { Next::Last } else { Next::Held },
            ..session
        }),
        Err(e) => {
            let _ = eprintln!(rt; "settle: the input could not be read: {e}");
            Err(Failure::Unread)
        }
    }
}

// Writes a text; where that fails, the program says so.
fn write_out<E: Eprint, W: Write>(rt: &E, output: &mut W, text: &[u8]) -> Result<(), Failure>
    ensures { MatchResult result (λ _. Appends (W.contents output.old) (W.contents output.new) text.now) (λ f. f ≡ Failure.Unwritten) }
{
    match write_whole(output, text) {
        Ok(()) => Ok(()),
        Err(e) => {
            let _ = eprintln!(rt; "settle: the output could not be written: {e}");
            Err(Failure::Unwritten)
        }
    }
}

// ---- a session

fn begin_session() -> Session
    ensures { Begun result }
{
    Session {
        progress: begin(),
        held: 0,
        next: Next::Read,
    }
}

// As many turns as can be counted: a proved loop has to end, and nothing says that the input does.
fn most_turns() -> u64
    ensures { result ≡ last_number }
{
    u64::MAX
}

// Reads, makes a turn and writes, until the run is over, the input cannot be read or the output cannot be written.
fn run_session<E: Eprint, R: Read, W: Write>(
    rt: &E,
    reader: &mut R,
    output: &mut W,
    buffer: &mut [u8],
    store: &mut Store,
    out: &mut [u8],
) -> Result<(), Failure>
    requires sized { Stocked store.old }
    requires buffer_len { (length buffer.old ≡ buffer_size) × (longest_text ≤ length out.old) }
    ensures same { SameSlices store.old store.new }
    ensures settles { (given : List ℕ) → R.remaining reader.old ≡ Some given
        → OnOk result (Appends (W.contents output.old) (W.contents output.new) (settled given)) }
    ensures ended { (session : Session) × (read written : List ℕ) × Ended result session (lists_in store.new) buffer.new read written
        × Carried result session (R.remaining reader.old) (R.remaining reader.new) (W.contents output.old) (W.contents output.new)
        read written }
{
    let mut session = begin_session();
    for _turn in 0..most_turns() {
        session = read_on(rt, reader, session, buffer)?;
        let turned = turn(session, buffer, store, out);
        session = turned.session;
        write_out(rt, output, &out[..turned.written])?;
        if let Progress::Over = session.progress {
            return Ok(());
        }
    }
    Err(Failure::Unfinished)
}

fn status(outcome: Result<(), Failure>) -> u8
    ensures { result ≡ status_of outcome }
{
    match outcome {
        Ok(()) => 0,
        Err(failure) => failure.status(),
    }
}

// ---- the program

fn no_readings() -> [u32; READING_PLACES]
    ensures { settle_points * longest_month * hour_places ≡ length result }
{
    [0; READING_PLACES]
}

fn no_records() -> [i64; RECORD_NUMBERS]
    ensures { settle_records * record_size ≡ length result }
{
    [0; RECORD_NUMBERS]
}

// Room for the longest text of a field, and as much again, so that not every field is written by itself.
const TEXT_PLACES: usize = 2 * LONGEST_TEXT;

fn no_text() -> [u8; TEXT_PLACES]
    ensures { 2 * longest_text ≡ length result }
{
    [0; TEXT_PLACES]
}

// What the program does, and its status: `main` of `settle_program` ends with it.
pub fn settle_run<R: ReadsInput + Print + Eprint>(rt: &R) -> u8
    ensures ended { (after : Lists) × (buffer read written : List ℕ) × (session : Session) × (outcome : Result ⊤ Failure)
        × (result ≡ status_of outcome) × Ended outcome session after buffer read written }
    ensures fits { result ≤ 3 }
{
    let mut reader = rt.reader();
    let mut output = writer(rt);
    let mut element_data = [0u8; DATA_PLACES];
    let mut prices = [0i64; PRICE_TABLE_PLACES];
    let mut links = [0u64; PLACES];
    let mut holders = [0u64; PLACES];
    let mut states = [0u64; PLACES];
    let mut readings = no_readings();
    let mut blocks = [0u8; BLOCK_PLACES];
    let mut lines = [0i64; LINE_TABLE_PLACES];
    let mut sent = [0i64; LINE_TABLE_PLACES];
    let mut records = no_records();
    let mut out = no_text();
    let mut buffer = io::large_buffer();
    let mut store = Store {
        element_data: &mut element_data,
        prices: &mut prices,
        links: &mut links,
        holders: &mut holders,
        states: &mut states,
        readings: &mut readings,
        blocks: &mut blocks,
        lines: &mut lines,
        sent: &mut sent,
        records: &mut records,
    };
    let outcome = run_session(
        rt,
        &mut reader,
        &mut output,
        &mut buffer,
        &mut store,
        &mut out,
    );
    status(outcome)
}
