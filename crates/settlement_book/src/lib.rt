// Every form for any book and any tables, opening, message and queries: questions 2 to 5, then the form for a book that is well formed; and
// the functions that the static library `settlement_book_c` exports, over numbers and slices. A book is eleven numbers in the order of
// `rules::Book`, a message nine in the order of `rules::Fields`; every table is lent. Where the numbers of a book, a message or a line are
// too many or too few, the answer is question 3, before anything else is asked. A refusal changes nothing that was lent, but that a query
// for periods then tells that it read none.
// A name that ends in `_within` is the form for a book that is well formed. Outside this file only the static library's safe Rust wrapper
// calls these (`library/src/book.rs`), which sees to what they ask; every other caller takes the forms that ask nothing.
#![tactic(auto)]

ghost use Rattle.std.specs.Prelude.{◌≡◌, length};
ghost use Rattle.rules.specs.Sizes.{line_size};
ghost use Rattle.rules.specs.Whole.{Whole};
ghost use Rattle.rules.specs.Answers.{number_of};
ghost use Rattle.rules.specs.Opening.{opening_answer, after_opening};
ghost use Rattle.rules.specs.Lent.{Lists, world_in, lend_data, lend_links, lend_rows, lend_lines, given, open_world, SameLent};
ghost use Rattle.settlement.specs.Replies.{Replied};
ghost use Rattle.settlement_book.specs.Numbers.{book_size, fields_size, book_in, fields_in, fresh_in};
ghost use Rattle.settlement_book.specs.Numbers.{SizedBook, SizedMessage, SizedLine};
ghost use Rattle.settlement_book.specs.Promises.{OpensIn, RepliesIn, LineIn, PeriodsIn, DayIn, PackedIn, ReadIn};

pub mod numbers;
pub mod questions;

use crate::numbers::{
    BOOK_SIZE, FIELDS_SIZE, book_of, fields_of, put_book, put_day, put_line, put_reply,
};
use crate::questions::{Lengths, check_book, check_opening};
use packed::read_packed;
use queries::periods_place;
use queries::sums::packed_sum;
use recording::opening::{clear_tables, fresh_book, named_book};
use rules::{Fields, LINE_SIZE, Lent, OpenBook, Refusal, number};
use validation::questions::ask_pair;

// ---- opening

// Opens the book that `opened.book` names by its month and counts: it is the fresh book then, with zeros in every table; or the first of
// questions 2 to 4 that says no, and nothing is written. Linear in what is lent.
pub fn open_book(opened: &mut OpenBook) -> Result<(), Refusal>
    ensures same { SameLent opened.old opened.new }
    ensures number { number_of result ≡ opening_answer (open_world opened.old) }
    ensures world { open_world opened.new ≡ after_opening (open_world opened.old) }
    ensures whole { number_of result ≡ 0 → Whole (open_world opened.new) }
{
    let lent = opened.lent();
    check_opening(
        lent.book,
        lent.element_data,
        lent.prices,
        Lengths::of(&lent),
    )?;
    clear_tables(opened);
    opened.book = fresh_book(opened.book);
    Ok(())
}

// The same in numbers, of the book that the first five name: 0, and the fresh book's numbers; or the question that says no, and nothing is
// written. Linear in what is lent.
pub fn settlement_book_open(
    book: &mut [u64],
    element_data: &[u8],
    prices: &[i64],
    links: &mut [u64],
    holders: &mut [u64],
    states: &mut [u64],
    readings: &mut [u32],
    blocks: &mut [u8],
    lines: &mut [i64],
    sent: &mut [i64],
) -> u64
    ensures opens { let before =
        given element_data.now prices.now links.old holders.old states.old readings.old blocks.old lines.old sent.old in
        let after = given element_data.now prices.now links.new holders.new states.new readings.new blocks.new lines.new sent.new in
        let fresh = fresh_in book.old in
        SizedBook book.old → OpensIn (world_in fresh before) (world_in fresh after) book.old book.new result }
    ensures otherwise { let before =
        given element_data.now prices.now links.old holders.old states.old readings.old blocks.old lines.old sent.old in
        let after = given element_data.now prices.now links.new holders.new states.new readings.new blocks.new lines.new sent.new in
        (SizedBook book.old → ⊥) → (result ≡ 3) × (book.new ≡ book.old) × (after ≡ before) }
    ensures whole { let after =
        given element_data.now prices.now links.new holders.new states.new readings.new blocks.new lines.new sent.new in
        result ≡ 0 → Whole (world_in (book_in book.new) after) }
{
    if book.len() != BOOK_SIZE {
        return Refusal::WrongLength.number();
    }
    let named = book_of(book);
    let mut opened = OpenBook {
        book: named_book(
            named.year,
            named.month,
            named.points,
            named.suppliers,
            named.elements,
        ),
        element_data,
        prices,
        links,
        holders,
        states,
        readings,
        blocks,
        lines,
        sent,
    };
    match open_book(&mut opened) {
        Ok(()) => {
            put_book(book, opened.book);
            0
        }
        Err(refusal) => refusal.number(),
    }
}

// ---- messages

// A message of any book and any tables: questions 2 to 18; nine numbers for each record of the list. A refusal leaves book, tables and list
// as they were. Linear in what is lent, for the questions of the book.
pub fn message(opened: &mut OpenBook, records: &mut [i64], fields: Fields) -> Result<usize, Refusal>
    ensures same { SameLent opened.old opened.new }
    ensures replied { Replied (open_world opened.old) (open_world opened.new) fields result records.old records.new }
{
    check_book(&opened.lent())?;
    settlement::message(opened, records, fields)
}

// The same in numbers: the question that says no, and everything lent is as it was, the count too; or 0, and how many records stand at the
// front of the list.
pub fn settlement_book_message(
    book: &mut [u64],
    element_data: &[u8],
    prices: &[i64],
    links: &mut [u64],
    holders: &mut [u64],
    states: &mut [u64],
    readings: &mut [u32],
    blocks: &mut [u8],
    lines: &mut [i64],
    sent: &mut [i64],
    records: &mut [i64],
    fields: &[u64],
    count: &mut u64,
) -> u64
    ensures replies { let before =
        given element_data.now prices.now links.old holders.old states.old readings.old blocks.old lines.old sent.old in
        let after = given element_data.now prices.now links.new holders.new states.new readings.new blocks.new lines.new sent.new in
        SizedMessage book.old fields.now
        → RepliesIn (world_in (book_in book.old) before) (world_in (book_in book.new) after) (fields_in fields.now)
        result count.old count.new records.old records.new }
    ensures otherwise { let before =
        given element_data.now prices.now links.old holders.old states.old readings.old blocks.old lines.old sent.old in
        let after = given element_data.now prices.now links.new holders.new states.new readings.new blocks.new lines.new sent.new in
        (SizedMessage book.old fields.now → ⊥)
        → (result ≡ 3) × (book.new ≡ book.old) × (after ≡ before) × (records.new ≡ records.old) × (count.new ≡ count.old) }
{
    if book.len() != BOOK_SIZE || fields.len() != FIELDS_SIZE {
        return Refusal::WrongLength.number();
    }
    let mut opened = OpenBook {
        book: book_of(book),
        element_data,
        prices,
        links,
        holders,
        states,
        readings,
        blocks,
        lines,
        sent,
    };
    let reply = message(&mut opened, records, fields_of(fields));
    put_reply(reply, opened.book, book, count)
}

// The same of a book that is well formed, and stays so; for the Rust wrapper alone. Cost: as for `settlement::message`.
pub fn settlement_book_message_within(
    book: &mut [u64],
    element_data: &[u8],
    prices: &[i64],
    links: &mut [u64],
    holders: &mut [u64],
    states: &mut [u64],
    readings: &mut [u32],
    blocks: &mut [u8],
    lines: &mut [i64],
    sent: &mut [i64],
    records: &mut [i64],
    fields: &[u64],
    count: &mut u64,
) -> u64
    requires book_len { (length book.old ≡ book_size) × (length fields.now ≡ fields_size) }
    requires whole_2 { Whole (world_in (book_in book.old)
        (given element_data.now prices.now links.old holders.old states.old readings.old blocks.old lines.old sent.old)) }
    ensures replies { let before =
        given element_data.now prices.now links.old holders.old states.old readings.old blocks.old lines.old sent.old in
        let after = given element_data.now prices.now links.new holders.new states.new readings.new blocks.new lines.new sent.new in
        RepliesIn (world_in (book_in book.old) before) (world_in (book_in book.new) after) (fields_in fields.now)
        result count.old count.new records.old records.new }
    ensures whole { let after =
        given element_data.now prices.now links.new holders.new states.new readings.new blocks.new lines.new sent.new in
        Whole (world_in (book_in book.new) after) }
{
    let mut opened = OpenBook {
        book: book_of(book),
        element_data,
        prices,
        links,
        holders,
        states,
        readings,
        blocks,
        lines,
        sent,
    };
    let reply = settlement::message(&mut opened, records, fields_of(fields));
    put_reply(reply, opened.book, book, count)
}

// ---- the line query

// The quantity, kroner and billionths of a supplier and an element, of a book that is well formed. For the Rust wrapper alone. Constant
// time.
pub fn settlement_book_line_within(
    book: &[u64],
    lines: &[i64],
    supplier: u64,
    element: u64,
    line: &mut [i64],
) -> u64
    requires book_len { (length book.now ≡ book_size) × (length line.old ≡ line_size) }
    requires whole { (o : Lists) × Whole (world_in (book_in book.now) (lend_lines lines.now o)) }
    ensures { (o : Lists) →
        let w = world_in (book_in book.now) (lend_lines lines.now o) in
        Whole w → LineIn w supplier element result line.old line.new }
{
    put_line(queries::line(book_of(book), lines, supplier, element), line)
}

// The same of any book and any tables. Linear in what is lent, for the questions of the book.
pub fn settlement_book_line(
    book: &[u64],
    element_data: &[u8],
    prices: &[i64],
    links: &[u64],
    holders: &[u64],
    states: &[u64],
    readings: &[u32],
    blocks: &[u8],
    lines: &[i64],
    sent: &[i64],
    supplier: u64,
    element: u64,
    line: &mut [i64],
) -> u64
    ensures answers { let lists =
        given element_data.now prices.now links.now holders.now states.now readings.now blocks.now lines.now sent.now in
        SizedLine book.now line.old → LineIn (world_in (book_in book.now) lists) supplier element result line.old line.new }
    ensures otherwise { (SizedLine book.now line.old → ⊥) → (result ≡ 3) × (line.new ≡ line.old) }
{
    if book.len() != BOOK_SIZE || line.len() != LINE_SIZE {
        return Refusal::WrongLength.number();
    }
    let lent = Lent {
        book: book_of(book),
        element_data,
        prices,
        links,
        holders,
        states,
        readings,
        blocks,
        lines,
        sent,
    };
    match check_book(&lent) {
        Ok(()) => settlement_book_line_within(book, lines, supplier, element, line),
        Err(refusal) => refusal.number(),
    }
}

// ---- the periods of a point and element

// Where everything recorded for a point and an element stands in the link table, of a book that is well formed: the place of the first row,
// and how many there are; and how many rows were read, which is 0 where the query is refused. For the Rust wrapper alone. Linear in the
// rows up to the first beyond the point and element.
pub fn settlement_book_periods_within(
    book: &[u64],
    links: &[u64],
    point: u64,
    element: u64,
    place: &mut u64,
    count: &mut u64,
    read: &mut u64,
) -> u64
    requires book_len { length book.now ≡ book_size }
    requires whole { (o : Lists) × Whole (world_in (book_in book.now) (lend_links links.now o)) }
    ensures { (o : Lists) →
        let w = world_in (book_in book.now) (lend_links links.now o) in
        Whole w → PeriodsIn w point element result place.old place.new count.old count.new read.new }
{
    let held = book_of(book);
    if let Err(refusal) = ask_pair(held, point, element) {
        *read = 0;
        return refusal.number();
    }
    let part = periods_place(held, links, point, element);
    *place = part.place as u64;
    *count = part.count as u64;
    *read = part.read as u64;
    0
}

// The same of any book and any tables. Linear in what is lent, for the questions of the book.
pub fn settlement_book_periods(
    book: &[u64],
    element_data: &[u8],
    prices: &[i64],
    links: &[u64],
    holders: &[u64],
    states: &[u64],
    readings: &[u32],
    blocks: &[u8],
    lines: &[i64],
    sent: &[i64],
    point: u64,
    element: u64,
    place: &mut u64,
    count: &mut u64,
    read: &mut u64,
) -> u64
    ensures answers { let lists =
        given element_data.now prices.now links.now holders.now states.now readings.now blocks.now lines.now sent.now in
        SizedBook book.now → PeriodsIn (world_in (book_in book.now) lists) point element result
        place.old place.new count.old count.new read.new }
    ensures otherwise { (SizedBook book.now → ⊥)
        → (result ≡ 3) × (place.new ≡ place.old) × (count.new ≡ count.old) × (read.new ≡ 0) }
{
    *read = 0;
    if book.len() != BOOK_SIZE {
        return Refusal::WrongLength.number();
    }
    let lent = Lent {
        book: book_of(book),
        element_data,
        prices,
        links,
        holders,
        states,
        readings,
        blocks,
        lines,
        sent,
    };
    match check_book(&lent) {
        Ok(()) => settlement_book_periods_within(book, links, point, element, place, count, read),
        Err(refusal) => refusal.number(),
    }
}

// ---- the earliest day without a holder

// The earliest day of the month on which the point counts but for a missing holder and has a link, or 36,525 where there is none, of a book
// that is well formed. For the Rust wrapper alone. Cost: as for `queries::day_without_holder`.
pub fn settlement_book_day_without_holder_within(
    book: &[u64],
    links: &[u64],
    holders: &[u64],
    states: &[u64],
    point: u64,
    day: &mut u64,
) -> u64
    requires book_len { length book.now ≡ book_size }
    requires whole { (o : Lists) × Whole (world_in (book_in book.now) (lend_rows links.now holders.now states.now o)) }
    ensures { (o : Lists) →
        let w = world_in (book_in book.now) (lend_rows links.now holders.now states.now o) in
        Whole w → DayIn w point result day.old day.new }
{
    put_day(
        queries::day_without_holder(book_of(book), links, holders, states, point),
        day,
    )
}

// The same of any book and any tables. Linear in what is lent, for the questions of the book.
pub fn settlement_book_day_without_holder(
    book: &[u64],
    element_data: &[u8],
    prices: &[i64],
    links: &[u64],
    holders: &[u64],
    states: &[u64],
    readings: &[u32],
    blocks: &[u8],
    lines: &[i64],
    sent: &[i64],
    point: u64,
    day: &mut u64,
) -> u64
    ensures answers { let lists =
        given element_data.now prices.now links.now holders.now states.now readings.now blocks.now lines.now sent.now in
        SizedBook book.now → DayIn (world_in (book_in book.now) lists) point result day.old day.new }
    ensures otherwise { (SizedBook book.now → ⊥) → (result ≡ 3) × (day.new ≡ day.old) }
{
    if book.len() != BOOK_SIZE {
        return Refusal::WrongLength.number();
    }
    let lent = Lent {
        book: book_of(book),
        element_data,
        prices,
        links,
        holders,
        states,
        readings,
        blocks,
        lines,
        sent,
    };
    match check_book(&lent) {
        Ok(()) => settlement_book_day_without_holder_within(
            book, links, holders, states, point, day,
        ),
        Err(refusal) => refusal.number(),
    }
}

// ---- amounts for the ledger

// What a supplier owes for the elements of one owner, to the øre, in eight lent bytes as packed decimal, of a book that is well formed. For
// the Rust wrapper alone. Linear in the elements.
pub fn settlement_book_packed_sum_within(
    book: &[u64],
    element_data: &[u8],
    lines: &[i64],
    supplier: u64,
    owner: u64,
    bytes: &mut [u8],
) -> u64
    requires book_len { length book.now ≡ book_size }
    requires whole { (o : Lists) × Whole (world_in (book_in book.now) (lend_data element_data.now (lend_lines lines.now o))) }
    ensures { (o : Lists) →
        let w = world_in (book_in book.now) (lend_data element_data.now (lend_lines lines.now o)) in
        Whole w → PackedIn w supplier owner result bytes.old bytes.new }
{
    number(packed_sum(book_of(book), element_data, lines, supplier, owner, bytes))
}

// The same of any book and any tables. Linear in what is lent, for the questions of the book.
pub fn settlement_book_packed_sum(
    book: &[u64],
    element_data: &[u8],
    prices: &[i64],
    links: &[u64],
    holders: &[u64],
    states: &[u64],
    readings: &[u32],
    blocks: &[u8],
    lines: &[i64],
    sent: &[i64],
    supplier: u64,
    owner: u64,
    bytes: &mut [u8],
) -> u64
    ensures answers { let lists =
        given element_data.now prices.now links.now holders.now states.now readings.now blocks.now lines.now sent.now in
        SizedBook book.now → PackedIn (world_in (book_in book.now) lists) supplier owner result bytes.old bytes.new }
    ensures otherwise { (SizedBook book.now → ⊥) → (result ≡ 3) × (bytes.new ≡ bytes.old) }
{
    if book.len() != BOOK_SIZE {
        return Refusal::WrongLength.number();
    }
    let lent = Lent {
        book: book_of(book),
        element_data,
        prices,
        links,
        holders,
        states,
        readings,
        blocks,
        lines,
        sent,
    };
    match check_book(&lent) {
        Ok(()) => settlement_book_packed_sum_within(
            book,
            element_data,
            lines,
            supplier,
            owner,
            bytes,
        ),
        Err(refusal) => refusal.number(),
    }
}

// The amount in øre that lent bytes, of any length and whatever they are, have as packed decimal; or question 24, which writes nothing.
pub fn settlement_book_read_packed(bytes: &[u8], amount: &mut i64) -> u64
    ensures { ReadIn bytes.now result amount.old amount.new }
{
    match read_packed(bytes) {
        Some(read) => {
            *amount = read;
            0
        }
        None => Refusal::NotPacked.number(),
    }
}
