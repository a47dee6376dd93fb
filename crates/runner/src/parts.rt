// The tables at the program's own sizes, and the parts of them that a book uses: its own tables are their fronts.
ghost use Rattle.std.specs.Prelude.{◌≡◌, ◌*◌, length};
ghost use Rattle.rules.specs.Sizes.{most_elements, element_size, price_places, record_size};
ghost use Rattle.rules.specs.Whole.{Dated, Whole};
ghost use Rattle.settlement.specs.Replies.{Replied};
ghost use Rattle.rules.specs.Answers.{number_of};
ghost use Rattle.rules.specs.Lent.{Lists, lend_elements, lend_tables, given, world_in};
ghost use Rattle.recording.specs.Opened.{cleared};
ghost use Rattle.file.specs.Program.{settle_answer, settle_records};
ghost use Rattle.runner.specs.Holding.{HoldsBook, Told};
ghost use Rattle.runner.specs.Parts.{lists_in, Sized, Stocked, SameSlices, Fitted, ends_of, fronts, fronts_opening, elements_answer};

use calendar::LONGEST_MONTH;
use facts::month_days;
use pricing::elements_right;
use recording::opening::clear_tables;
use rules::{
    Book, ELEMENT_SIZE, Fields, HOUR_PLACES, LINE_SIZE, MOST_ELEMENTS, MOST_LINES, OpenBook,
    PRICE_PLACES, Refusal,
};
use settlement::message;
use validation::limits::is_limited;
use validation::questions::ask;

// "`settle` takes at most 16 points; more is question 2."
pub const SETTLE_POINTS: u64 = 16;

// The places of each table, for 64 elements, 16 suppliers, and 16 points of 31 days of 24 hours.
pub const DATA_PLACES: usize = MOST_ELEMENTS as usize * ELEMENT_SIZE;

pub const PRICE_TABLE_PLACES: usize = MOST_ELEMENTS as usize * PRICE_PLACES;

pub const READING_PLACES: usize = BLOCK_PLACES * LONGEST_MONTH * HOUR_PLACES;

pub const BLOCK_PLACES: usize = SETTLE_POINTS as usize;

pub const LINE_TABLE_PLACES: usize = MOST_LINES * LINE_SIZE;

// The tables at these sizes, and room for the records of a round as numbers.
#[derive(Drop)]
pub struct Store<'a> {
    pub element_data: &'a mut [u8],
    pub prices: &'a mut [i64],
    pub links: &'a mut [u64],
    pub holders: &'a mut [u64],
    pub states: &'a mut [u64],
    pub readings: &'a mut [u32],
    pub blocks: &'a mut [u8],
    pub lines: &'a mut [i64],
    pub sent: &'a mut [i64],
    pub records: &'a mut [i64],
}

// Where the parts of a book end.
#[derive(Clone, Copy)]
pub struct Ends {
    pub described: usize,
    pub priced: usize,
    pub readings: usize,
    pub blocks: usize,
    pub lines: usize,
}

pub fn ends_of(book: Book) -> Ends
    requires { Fitted book × Dated book }
    ensures { result ≡ ends_of book }
{
    let elements = book.elements as usize;
    let points = book.points as usize;
    let days = month_days(book) as usize;
    Ends {
        described: elements * ELEMENT_SIZE,
        priced: elements * PRICE_PLACES,
        readings: points * days * HOUR_PLACES,
        blocks: points,
        lines: book.suppliers as usize * elements * LINE_SIZE,
    }
}

// ---- the opening

// Question 4 of the elements that were read. 24 steps for each element.
fn ask_elements(book: Book, element_data: &[u8], prices: &[i64]) -> Result<(), Refusal>
    requires fitted { Fitted book }
    requires element_data_len { (length element_data.now ≡ most_elements * element_size)
        × (length prices.now ≡ most_elements * price_places) }
    ensures { (o : Lists) →
        number_of result ≡ elements_answer (fronts_opening book (lend_elements element_data.now prices.now o)) }
{
    let elements = book.elements as usize;
    let right = elements_right(
        book,
        &element_data[..elements * ELEMENT_SIZE],
        &prices[..elements * PRICE_PLACES],
    );
    ask(right, Refusal::WrongElement)
}

// Questions 2 to 4 of the month and the elements that were read: the first that says no. Linear in the elements.
pub fn ask_opening(book: Book, element_data: &[u8], prices: &[i64]) -> Result<(), Refusal>
    requires { (length element_data.now ≡ most_elements * element_size) × (length prices.now ≡ most_elements * price_places) }
    ensures { (o : Lists) →
        number_of result ≡ settle_answer (fronts_opening book (lend_elements element_data.now prices.now o)) }
{
    if is_limited(book) && book.points <= SETTLE_POINTS {
        ask_elements(book, element_data, prices)
    } else {
        Err(Refusal::OutOfLimits)
    }
}

// Here and in the next three functions the slices come one by one: they are parts of a `Store`'s slices, and two parts of its fields at one
// place have no generated proof.

// Every table that messages write is 0; no element is lent. Linear in what is lent.
fn clear_lent(
    book: Book,
    links: &mut [u64],
    holders: &mut [u64],
    states: &mut [u64],
    readings: &mut [u32],
    blocks: &mut [u8],
    lines: &mut [i64],
    sent: &mut [i64],
)
    ensures { (o : Lists) →
        lend_tables links.new holders.new states.new readings.new blocks.new lines.new sent.new o
        ≡ cleared (lend_tables links.old holders.old states.old readings.old blocks.old lines.old sent.old o) }
{
    clear_tables(&mut OpenBook {
        book,
        element_data: &[],
        prices: &[],
        links,
        holders,
        states,
        readings,
        blocks,
        lines,
        sent,
    });
}

// The parts of the tables are 0. Linear in them.
pub fn clear_parts(
    book: Book,
    links: &mut [u64],
    holders: &mut [u64],
    states: &mut [u64],
    readings: &mut [u32],
    blocks: &mut [u8],
    lines: &mut [i64],
    sent: &mut [i64],
)
    requires fitted { Fitted book × Dated book }
    requires sized { (o : Lists) ×
        Sized (lend_tables links.old holders.old states.old readings.old blocks.old lines.old sent.old o) }
    ensures { (o : Lists) →
        let before = lend_tables links.old holders.old states.old readings.old blocks.old lines.old sent.old o in
        let after = lend_tables links.new holders.new states.new readings.new blocks.new lines.new sent.new o in
        fronts book after ≡ cleared (fronts book before) }
{
    let ends = ends_of(book);
    clear_lent(
        book,
        links,
        holders,
        states,
        &mut readings[..ends.readings],
        &mut blocks[..ends.blocks],
        &mut lines[..ends.lines],
        &mut sent[..ends.lines],
    );
}

// ---- a message of an open book

// A message of a book whose tables are what is lent.
fn message_lent(
    book: Book,
    element_data: &[u8],
    prices: &[i64],
    links: &mut [u64],
    holders: &mut [u64],
    states: &mut [u64],
    readings: &mut [u32],
    blocks: &mut [u8],
    lines: &mut [i64],
    sent: &mut [i64],
    records: &mut [i64],
    fields: Fields,
) -> (Book, Result<usize, Refusal>)
    requires { Whole (world_in book (given element_data.now prices.now links.old holders.old states.old readings.old blocks.old
        lines.old sent.old)) }
    ensures replied { let before = given element_data.now prices.now links.old holders.old states.old readings.old blocks.old
        lines.old sent.old in
        let after = given element_data.now prices.now links.new holders.new states.new readings.new blocks.new lines.new sent.new in
        Replied (world_in book before) (world_in result.0 after) fields result.1 records.old records.new }
    ensures whole { Whole (world_in result.0 (given element_data.now prices.now links.new holders.new states.new readings.new
        blocks.new lines.new sent.new)) }
{
    let mut opened = OpenBook {
        book,
        element_data,
        prices,
        links,
        holders,
        states,
        readings,
        blocks,
        lines,
        sent,
    };
    let reply = message(&mut opened, records, fields);
    (opened.book, reply)
}

// A message of a book whose tables are the fronts of what is lent.
pub fn tell(
    book: Book,
    element_data: &[u8],
    prices: &[i64],
    links: &mut [u64],
    holders: &mut [u64],
    states: &mut [u64],
    readings: &mut [u32],
    blocks: &mut [u8],
    lines: &mut [i64],
    sent: &mut [i64],
    records: &mut [i64],
    fields: Fields,
) -> (Book, Result<usize, Refusal>)
    requires sized { Sized (given element_data.now prices.now links.old holders.old states.old readings.old blocks.old lines.old sent.old)
        × (length records.old ≡ settle_records * record_size) }
    requires open { HoldsBook book
        (given element_data.now prices.now links.old holders.old states.old readings.old blocks.old lines.old sent.old) }
    ensures { let before = given element_data.now prices.now links.old holders.old states.old readings.old blocks.old lines.old sent.old in
        let after = given element_data.now prices.now links.new holders.new states.new readings.new blocks.new lines.new sent.new in
        Told book before fields result.0 result.1 after records.new }
{
    let ends = ends_of(book);
    message_lent(
        book,
        &element_data[..ends.described],
        &prices[..ends.priced],
        links,
        holders,
        states,
        &mut readings[..ends.readings],
        &mut blocks[..ends.blocks],
        &mut lines[..ends.lines],
        &mut sent[..ends.lines],
        records,
        fields,
    )
}
