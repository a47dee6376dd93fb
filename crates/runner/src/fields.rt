// One field, by what may come next: the month, an element or what opens the book, or a message of the open book.
ghost use Rattle.std.specs.Prelude.{◌≡◌, List, [], ◌∷◌, ◌++◌, ℕ, ◌+◌, ◌*◌, ◌≤◌, ◌<◌, length, take, drop};
ghost use Rattle.rules.specs.Sizes.{most_elements, element_size, price_places, record_size};
ghost use Rattle.rules.specs.Answers.{refusal_number};
ghost use Rattle.rules.specs.Lent.{Lists, given};
ghost use Rattle.file.specs.Lines.{longest_line};
ghost use Rattle.file.specs.Program.{Heading, collected, settle_records};
ghost use Rattle.runner.specs.Stages.{start, elements, messages, broken, opening, opened_to};
ghost use Rattle.runner.specs.Parts.{lists_in, Stocked, SameSlices, fronts_world};
ghost use Rattle.runner.specs.Texts.{longest_text, last_number};
ghost use Rattle.runner.specs.Holding.{HoldsValues, HoldsBook, Advances, Stepped};

use crate::parts::{Store, ask_opening, clear_parts, tell};
use crate::texts::put_reply;
use crate::{Advanced, Progress};
use facts::{month_days, month_first};
use file::fields::{Found, HEADER_SIZE, Phase, read_element};
use file::output::{put_book, put_refused};
use file::reader::{Located, read};
use recording::opening::{fresh_book, named_book};
use rules::{Book, MOST_ELEMENTS, Refusal};

// The run ends with a question of the opening, or with question 1.
fn refuse(refusal: Refusal, at: usize, out: &mut [u8], from: usize) -> Advanced
    requires { from + longest_line ≤ length out.old }
    ensures { (t : Lists) → Advances (broken at (refusal_number refusal)) result t out.old out.new from }
{
    let written = put_refused(out, from, 0, refusal.number());
    Advanced {
        progress: Progress::Over,
        next: at,
        written,
    }
}

// ---- before tag 1

// The month, or a field that is not in its place.
pub fn take_month(s: &[u8], at: usize, ended: bool, out: &mut [u8], from: usize) -> Option<Advanced>
    requires { (at ≤ length s.now) × (from + longest_line ≤ length out.old) }
    ensures { (t : Lists) → Stepped start s.now at ended result t t out.old out.new from }
{
    let Located { found, place } = read(s, at, Phase::Start, ended);
    match found {
        Found::More => None,
        Found::Month {
            year,
            month,
            points,
            suppliers,
        } => Some(Advanced {
            progress: Progress::Elements {
                book: named_book(year, month, points, suppliers, 0),
            },
            next: place,
            written: from,
        }),
        _ => Some(refuse(Refusal::BrokenField, at, out, from)),
    }
}

// ---- before the opening

// An element's value goes into the tables, where there is room for it; one element field more, up to 65.
fn take_element(
    book: Book,
    s: &[u8],
    start: usize,
    size: usize,
    element_data: &mut [u8],
    prices: &mut [i64],
) -> Book
    requires size_in_bounds { (start + size ≤ length s.now) × (element_size ≤ size) }
    requires element_data_len { (length element_data.old ≡ most_elements * element_size)
        × (length prices.old ≡ most_elements * price_places) }
    ensures { (h : Heading) (values : List (List ℕ)) → HoldsValues book element_data.old prices.old h values
        → HoldsValues result element_data.new prices.new h (values ++ (take size (drop start s.now) ∷ [])) }
{
    if book.elements < MOST_ELEMENTS {
        read_element(s, start, size, element_data, prices, book.elements as usize);
    }
    Book {
        elements: book.elements.min(MOST_ELEMENTS) + 1,
        ..book
    }
}

// The book opens, printing its line, or the run is over with the question that says no; it is over too where the input ends here, which
// `last` says: nothing hangs on it but that.
fn open_book(
    book: Book,
    last: bool,
    at: usize,
    store: &mut Store,
    out: &mut [u8],
    from: usize,
) -> Advanced
    requires sized { Stocked store.old }
    requires longest_line_in_bounds { from + longest_line ≤ length out.old }
    ensures same { SameSlices store.old store.new }
    ensures sized { Stocked store.new }
    ensures advances { (h : Heading) (values : List (List ℕ)) → HoldsValues book store.old.element_data.now store.old.prices.now h values
        → Advances (opening at (collected h values) (opened_to last)) result (lists_in store.new) out.old out.new from }
{
    let element_data = &mut *store.element_data;
    let prices = &mut *store.prices;
    if let Err(refusal) = ask_opening(book, element_data, prices) {
        return refuse(refusal, at, out, from);
    }
    let fresh = fresh_book(book);
    clear_parts(
        fresh,
        store.links,
        store.holders,
        store.states,
        store.readings,
        store.blocks,
        store.lines,
        store.sent,
    );
    let days = month_days(fresh);
    let first = month_first(fresh);
    let written = put_book(out, from, fresh.year, fresh.month, days, first);
    let progress = if last {
        Progress::Over
    } else {
        Progress::Messages {
            book: fresh,
            number: 1,
        }
    };
    Advanced {
        progress,
        next: at,
        written,
    }
}

// An element, or what opens the book: "The book opens .. at the first whole message field or the end." Or a field that is not in its place.
pub fn gather(
    book: Book,
    s: &[u8],
    at: usize,
    ended: bool,
    store: &mut Store,
    out: &mut [u8],
    from: usize,
) -> Option<Advanced>
    requires sized { Stocked store.old }
    requires bounds { (at ≤ length s.now) × (from + longest_line ≤ length out.old) }
    ensures same { SameSlices store.old store.new }
    ensures sized { Stocked store.new }
    ensures steps { (h : Heading) (values : List (List ℕ)) → HoldsValues book store.old.element_data.now store.old.prices.now h values
        → Stepped (elements h values) s.now at ended result (lists_in store.old) (lists_in store.new) out.old out.new from }
{
    let Located { found, place } = read(s, at, Phase::Elements, ended);
    match found {
        Found::More => None,
        Found::Element { length } => {
            let book = take_element(
                book,
                s,
                at + HEADER_SIZE,
                length,
                store.element_data,
                store.prices,
            );
            Some(Advanced {
                progress: Progress::Elements { book },
                next: place,
                written: from,
            })
        }
        Found::Message { .. } => Some(open_book(book, false, at, store, out, from)),
        Found::End => Some(open_book(book, true, at, store, out, from)),
        _ => Some(refuse(Refusal::BrokenField, at, out, from)),
    }
}

// ---- behind the opening

// A message of the open book, whose records or refusal are printed; the end; or a field that is not in its place.
pub fn take_message(
    book: Book,
    number: u64,
    s: &[u8],
    at: usize,
    ended: bool,
    store: &mut Store,
    out: &mut [u8],
    from: usize,
) -> Option<Advanced>
    requires sized { Stocked store.old }
    requires open { HoldsBook book (lists_in store.old) }
    requires bounds { (at ≤ length s.now) × (number < last_number) }
    requires room { from + longest_text ≤ length out.old }
    ensures same { SameSlices store.old store.new }
    ensures sized { Stocked store.new }
    ensures steps { let t = lists_in store.old in
        Stepped (messages (fronts_world book t) number) s.now at ended result t (lists_in store.new) out.old out.new from }
{
    let Located { found, place } = read(s, at, Phase::Messages, ended);
    match found {
        Found::More => None,
        Found::Message { fields } => {
            let element_data = &mut *store.element_data;
            let prices = &mut *store.prices;
            let (book, reply) = tell(
                book,
                element_data,
                prices,
                store.links,
                store.holders,
                store.states,
                store.readings,
                store.blocks,
                store.lines,
                store.sent,
                store.records,
                fields,
            );
            let written = put_reply(reply, number, store.records, out, from);
            Some(Advanced {
                progress: Progress::Messages {
                    book,
                    number: number + 1,
                },
                next: place,
                written,
            })
        }
        Found::End => Some(Advanced {
            progress: Progress::Over,
            next: at,
            written: from,
        }),
        _ => Some(refuse(Refusal::BrokenField, at, out, from)),
    }
}
