// Document 01's month, March 2024, as a stored list of messages that `history::open_and_run` opens and runs. It prints a line for each
// record that the rounds have written, in their order, and then a line for each message that was refused.
#![tactic(auto)]

ghost use Rattle.std.specs.Prelude.{ℕ, ◌<◌};
ghost use Rattle.ledger.specs.RecordNumbers.{RecordPlaces};

use file::output::{LONGEST_LINE, put_record, put_refused};
use history::open_and_run;
use ledger::records::record_at;
use recording::opening::named_book;
use rules::{HOUR_PLACES, LINE_SIZE, OpenBook, PLACES, PRICE_PLACES, RECORD_SIZE};
use settlement_book::numbers::FIELDS_SIZE;
use std::io;
use std::io::{Write, writer};

// The messages as document 01 lists them: kind, role, sender, received, point, element, day, hour, value.
const MESSAGES: usize = 11;

const LISTED: [[u64; FIELDS_SIZE]; MESSAGES] = [
    [5, 1, 0, 8826, 0, 0, 8826, 0, 2],
    [4, 2, 0, 8826, 0, 0, 8826, 0, 1],
    [4, 2, 0, 8826, 0, 0, 8841, 0, 2],
    [1, 1, 0, 8826, 0, 0, 8826, 0, 2],
    [1, 1, 0, 8826, 0, 1, 8826, 0, 1],
    [6, 1, 0, 8826, 0, 0, 8840, 23, 1000],
    [6, 1, 0, 8826, 0, 0, 8841, 0, 3000],
    [8, 2, 0, 8826, 0, 0, 0, 0, 0],
    [6, 1, 0, 8826, 0, 0, 8841, 0, 2500],
    [8, 2, 0, 8826, 0, 0, 0, 0, 0],
    [1, 1, 0, 8826, 0, 0, 8830, 0, 1],
];

// The first `count` records of the list, which holds numbers, as the entry points for C write them.
fn show_records<W: Write>(output: &mut W, records: &[i64], count: usize) -> io::Result<()>
    requires { (i : ℕ) → i < count → RecordPlaces records.now i }
{
    for i in 0..count {
        let mut line = [0; LONGEST_LINE];
        let n = put_record(&mut line, 0, record_at(records, i));
        output.write_all(&line[..n])?;
    }
    Ok(())
}

fn show_refused<W: Write>(output: &mut W, message: u64, question: u64) -> io::Result<()> {
    let mut line = [0; LONGEST_LINE];
    let n = put_refused(&mut line, 0, message, question);
    output.write_all(&line[..n])
}

// The messages that were refused, by their numbers from 1.
fn show_refusals<W: Write>(output: &mut W, answers: &[u64]) -> io::Result<()> {
    for (i, question) in answers.iter().enumerate() {
        if *question != 0 {
            show_refused(output, i as u64 + 1, *question)?;
        }
    }
    Ok(())
}

// Of element 0, a subscription, and of element 1, a day tariff.
fn element_prices() -> [i64; 2 * PRICE_PLACES] {
    let mut prices = [0; 2 * PRICE_PLACES];
    prices[0] = 20000000;
    prices[PRICE_PLACES] = 500000;
    prices
}

// March 2024 with one point, two suppliers and two elements, both the grid company's.
fn main(rt: HostRuntime) -> io::Result<()> {
    let element_data = [1, 1, 0, 3, 1, 0];
    let prices = element_prices();
    let mut links = [0; PLACES];
    let mut holders = [0; PLACES];
    let mut states = [0; PLACES];
    let mut readings = [0; 31 * HOUR_PLACES];
    let mut blocks = [0; 1];
    let mut lines = [0; 4 * LINE_SIZE];
    let mut sent = [0; 4 * LINE_SIZE];
    let mut records = [0; 10 * RECORD_SIZE];
    let mut answers = [0; MESSAGES];
    let messages = LISTED;
    let mut opened = OpenBook {
        book: named_book(2024, 3, 1, 2, 2),
        element_data: &element_data,
        prices: &prices,
        links: &mut links,
        holders: &mut holders,
        states: &mut states,
        readings: &mut readings,
        blocks: &mut blocks,
        lines: &mut lines,
        sent: &mut sent,
    };
    let ran = open_and_run(
        &mut opened,
        &mut records,
        messages.as_flattened(),
        &mut answers,
    );
    let mut output = writer(&rt);
    match ran {
        Ok(count) => {
            show_records(&mut output, &records, count)?;
            show_refusals(&mut output, &answers)
        }
        Err(refusal) => show_refused(&mut output, 0, refusal.number()),
    }
}
