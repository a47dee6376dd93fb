// Questions 2 to 5 of whatever is lent as a book: any numbers, slices of any length, any words.
// Products are computed only where question 2 has passed.
ghost use Rattle.std.specs.Prelude.{◌≡◌, ◌&&◌, ◌*◌, leb, length};
ghost use Rattle.rules.specs.Basics.{all_in};
ghost use Rattle.rules.specs.Sizes.{line_size, most_energy};
ghost use Rattle.rules.specs.WellFormed.{opening_sized, tables_sized, lines_sized, tables_right, dates_right};
ghost use Rattle.rules.specs.WellFormed.{links_right, holders_right, states_right, lines_right};
ghost use Rattle.rules.specs.WellFormed.{question2, question3, question5};
ghost use Rattle.rules.specs.Effects.{ask_book};
ghost use Rattle.rules.specs.Opening.{opening_answer};
ghost use Rattle.rules.specs.Answers.{number_of};
ghost use Rattle.rules.specs.Whole.{Limits};
ghost use Rattle.rules.specs.Lent.{Lists, world_in, opening_in, tables_in, lend_elements};
ghost use Rattle.rules.specs.Lent.{lists_of, lent_opening, lent_tables, lent_world};
ghost use Rattle.settlement_book.specs.Lengths.{lengths_of, Measured};

use calendar::{days_in_month, first_day};
use ledger::lines::lines_right;
use pricing::elements_right;
use rules::{
    Book, ELEMENT_SIZE, HOUR_PLACES, LAST_ROUND, LINE_SIZE, Lent, MOST_ENERGY, PLACES,
    PRICE_PLACES, Refusal,
};
use tables::{holders_right, links_right, states_right};
use validation::limits::{is_limited, rows_fit};
use validation::questions::ask;

// ---- question 3

// The lengths of all that is lent.
#[derive(Clone, Copy, Debug, PartialEq, Eq)]
pub struct Lengths {
    pub element_data: usize,
    pub prices: usize,
    pub links: usize,
    pub holders: usize,
    pub states: usize,
    pub readings: usize,
    pub blocks: usize,
    pub lines: usize,
    pub sent: usize,
}

impl Lengths {
    // Those of one value that lends it all.
    pub fn of(lent: &Lent) -> Lengths
        ensures { result ≡ lengths_of (lists_of lent.now) }
    {
        Lengths {
            element_data: lent.element_data.len(),
            prices: lent.prices.len(),
            links: lent.links.len(),
            holders: lent.holders.len(),
            states: lent.states.len(),
            readings: lent.readings.len(),
            blocks: lent.blocks.len(),
            lines: lent.lines.len(),
            sent: lent.sent.len(),
        }
    }
}

// 3 bytes and 24 prices for each element.
fn opening_sized(book: Book, lengths: Lengths) -> bool
    requires { (o : Lists) → Limits (opening_in book o) }
    ensures { (o : Lists) → lengths_of o ≡ lengths → result ≡ opening_sized (opening_in book o) }
{
    let elements = book.elements as usize;
    lengths.element_data == elements * ELEMENT_SIZE && lengths.prices == elements * PRICE_PLACES
}

// 1,024 places for each table of rows, 24 readings for each point and day, a block for each point.
fn tables_sized(book: Book, lengths: Lengths) -> bool
    requires { (o : Lists) → Limits (opening_in book o) }
    ensures { (o : Lists) → lengths_of o ≡ lengths → result ≡ tables_sized (opening_in book o) (tables_in book o) }
{
    let points = book.points as usize;
    let days = days_in_month(book.year, book.month) as usize;
    lengths.links == PLACES
        && lengths.holders == PLACES
        && lengths.states == PLACES
        && lengths.readings == points * days * HOUR_PLACES
        && lengths.blocks == points
}

// Three numbers for each supplier and element, of the lines and of what of them was sent.
fn lines_sized(book: Book, lengths: Lengths) -> bool
    requires { (o : Lists) → Limits (opening_in book o) }
    ensures { (o : Lists) → lengths_of o ≡ lengths → result ≡ (lines_sized (opening_in book o) o.lines
        && lines_sized (opening_in book o) o.sent) }
{
    let count = book.suppliers as usize * book.elements as usize * LINE_SIZE;
    lengths.lines == count && lengths.sent == count
}

// Each lent table has its exact length.
fn is_sized(book: Book, lengths: Lengths) -> bool
    requires { (o : Lists) → Limits (opening_in book o) }
    ensures { (o : Lists) → lengths_of o ≡ lengths → result ≡ question3 (world_in book o) }
{
    opening_sized(book, lengths) && tables_sized(book, lengths) && lines_sized(book, lengths)
}

// ---- questions 2 to 4

// Question 2.
#[tactic(auto, unfolding(rules::specs::WellFormed::question2))]
fn is_within_limits(book: Book) -> bool
    ensures { (o : Lists) → result ≡ question2 (world_in book o) }
{
    is_limited(book) && rows_fit(book)
}

// The first of questions 2 to 4 that says no.
pub fn check_opening(
    book: Book,
    element_data: &[u8],
    prices: &[i64],
    lengths: Lengths,
) -> Result<(), Refusal>
    requires { (o : Lists) × (lengths_of (lend_elements element_data.now prices.now o) ≡ lengths) }
    ensures { (o : Lists) →
        let t = lend_elements element_data.now prices.now o in
        lengths_of t ≡ lengths → number_of result ≡ opening_answer (world_in book t) }
{
    ask(is_within_limits(book), Refusal::OutOfLimits)?;
    ask(is_sized(book, lengths), Refusal::WrongLength)?;
    ask(
        elements_right(book, element_data, prices),
        Refusal::WrongElement,
    )
}

// ---- question 5

// Every reading is 0 to 9,999,999 Wh. Linear.
fn readings_right(readings: &[u32]) -> bool
    ensures { result ≡ all_in (λ x. leb x most_energy) readings.now }
{
    readings
        .iter()
        .all(|reading| u64::from(*reading) <= MOST_ENERGY)
}

// Every block mark is 0 or 1. Linear.
fn blocks_right(blocks: &[u8]) -> bool
    ensures { result ≡ all_in (λ x. leb x 1) blocks.now }
{
    blocks.iter().all(|mark| *mark <= 1)
}

// The tables of rows are sorted without overlap or repeats, with their fields in range and zeros behind them.
fn rows_right(lent: &Lent) -> bool
    requires { Measured lent.now }
    ensures { let o = lent_opening lent.now in let t = lent_tables lent.now in
        result ≡ (links_right o t.links && (holders_right o t.holders && states_right o t.states)) }
{
    let book = lent.book;
    links_right(book, lent.element_data, lent.links, book.periods as usize)
        && holders_right(book, lent.holders, book.holders as usize)
        && states_right(book, lent.states, book.states as usize)
}

// So are those of readings and of blocks in range.
#[tactic(auto, unfolding(rules::specs::WellFormed::tables_right))]
fn tables_right(lent: &Lent) -> bool
    requires { Measured lent.now }
    ensures { result ≡ tables_right (lent_opening lent.now) (lent_tables lent.now) }
{
    rows_right(lent) && readings_right(lent.readings) && blocks_right(lent.blocks)
}

// The book's first day and days are those of its month. Constant time.
#[tactic(auto, using(rules::proofs::Tests::tests), unfolding(rules::specs::WellFormed::dates_right))]
fn dates_right(lent: &Lent) -> bool
    requires { Limits (lent_opening lent.now) }
    ensures { result ≡ dates_right (lent_opening lent.now) (lent_world lent.now).dates }
{
    lent.book.first == first_day(lent.book.year, lent.book.month)
        && lent.book.days == days_in_month(lent.book.year, lent.book.month)
}

// The lines, or what of them was sent, are right and within their bounds.
#[tactic(auto, unfolding(rules::specs::WellFormed::lines_right, rules::specs::World::line_count))]
fn are_lines_right(lent: &Lent, lines: &[i64]) -> bool
    requires limits { Limits (lent_opening lent.now) }
    requires places { length lines.now ≡ lent.now.book.suppliers * lent.now.book.elements * line_size }
    ensures { result ≡ lines_right (lent_opening lent.now) lines.now }
{
    let count = lent.book.suppliers as usize * lent.book.elements as usize;
    lines_right(lines, count)
}

// The book is well formed.
#[tactic(auto, unfolding(rules::specs::WellFormed::question5, rules::specs::Basics::within))]
fn is_right(lent: &Lent) -> bool
    requires { Measured lent.now }
    ensures { result ≡ question5 (lent_world lent.now) }
{
    tables_right(lent)
        && are_lines_right(lent, lent.lines)
        && are_lines_right(lent, lent.sent)
        && (1..=LAST_ROUND).contains(&lent.book.round)
        && dates_right(lent)
}

// ---- questions 2 to 5

// The first of them that says no. Linear in what is lent.
#[tactic(auto, unfolding(rules::specs::Effects::ask, rules::specs::Effects::ask_book, rules::specs::Opening::opening_answer))]
pub fn check_book(lent: &Lent) -> Result<(), Refusal>
    ensures { number_of result ≡ ask_book (lent_world lent.now) 0 }
{
    check_opening(lent.book, lent.element_data, lent.prices, Lengths::of(lent))?;
    ask(is_right(lent), Refusal::IllFormed)
}
