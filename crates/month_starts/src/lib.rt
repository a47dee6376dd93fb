// `month_starts` prints the first days of the 1,200 months from January 2000 on, and behind them the day after the last, one number a line.
// It adds up the lengths of the months by the leap-year rule and does not read the table that the book uses: only `comparison` does.
#![tactic(auto)]

pub mod comparison;

ghost use Rattle.std.specs.Prelude.{◌≡◌, Bool, ◌*◌, ◌≤◌, ◌<◌, length, is_ok, OnOk};
ghost use Rattle.std.specs.Io.KnownBytes.{Appends};
ghost use Rattle.std.specs.Process.{exit_status};
ghost use Rattle.calendar.specs.Gregorian.{is_leap, days_of_month, days_after, listed_months};
ghost use Rattle.file.specs.Lines.{number_width, Written};
ghost use Rattle.month_starts.specs.MonthStarts.{month_starts, number_lines, month_text, status_of};

use calendar::{FIRST_YEAR, MONTHS, YEAR_MONTHS};
use file::output::{NUMBER_WIDTH, Text};
use std::io;
use std::io::Write;
use std::process::ExitCode;
use streams::write_whole;

// ---- the leap-year rule and the lengths of months

// Of any year, not only of those that are listed.
#[tactic(auto, unfolding(calendar::specs::Gregorian::is_leap))]
pub fn is_leap(year: u64) -> bool
    ensures { result ≡ is_leap year }
{
    year % 4 == 0 && (year % 100 != 0 || year % 400 == 0)
}

// The number of days of a month, 1 to 12, of a year.
#[tactic(auto, unfolding(calendar::specs::Gregorian::days_of_month, calendar::specs::Gregorian::has_thirty))]
pub fn month_length(year: u64, month: u64) -> u64
    ensures { result ≡ days_of_month year month }
{
    match month {
        2 => if is_leap(year) { 29 } else { 28 },
        4 | 6 | 9 | 11 => 30,
        _ => 31,
    }
}

// The number of days of the month that lies `number` months after January 2000.
fn length_after(number: usize) -> u64
    requires { number < listed_months }
    ensures { result ≡ days_after number }
{
    let months = number as u64;
    month_length(FIRST_YEAR + months / YEAR_MONTHS, months % YEAR_MONTHS + 1)
}

// ---- the month starts

// The first days of the months, and behind them the day after the last: each is the one before it and the length of the month between.
#[tactic(auto, unfolding(calendar::specs::Gregorian::first_of_month, rules::specs::Basics::list_to))]
pub fn month_starts() -> [u64; MONTHS + 1]
    ensures { result ≡ month_starts }
{
    let mut starts = [0; MONTHS + 1];
    let mut day = 0;
    for (number, start) in starts.iter_mut().enumerate() {
        *start = day;
        day += length_after(number);
    }
    starts
}

// ---- what is printed

// Room for a line of each.
const TEXT_PLACES: usize = (MONTHS + 1) * NUMBER_WIDTH;

// The numbers of a list, each on a line of its own; the answer is the length of the text.
pub fn put_lines(out: &mut [u8], numbers: &[u64]) -> usize
    requires { length numbers.now * number_width ≤ length out.old }
    ensures { Written (length numbers.now * number_width) out.old out.new 0 result (number_lines numbers.now) }
{
    let mut text = Text { out, at: 0 };
    for number in numbers {
        text.number_then(*number, b'\n');
    }
    text.at
}

// Writes the text of the month starts, and no other.
pub fn write_month_starts<W: Write>(output: &mut W) -> io::Result<()>
    ensures { OnOk result (Appends (W.contents output.old) (W.contents output.new) month_text) }
{
    let starts = month_starts();
    let mut text = [0; TEXT_PLACES];
    let count = put_lines(&mut text, &starts);
    write_whole(output, &text[..count])
}

// The program's status: whether the text was written.
fn status(outcome: &io::Result<()>) -> ExitCode
    ensures { exit_status result ≡ status_of (is_ok outcome.now) }
{
    match outcome {
        Ok(()) => ExitCode::SUCCESS,
        Err(_) => ExitCode::FAILURE,
    }
}

// What the program does, and its status: `main` of `month_starts_program` ends with it.
pub fn month_starts_run<R: Print + Eprint>(rt: &R) -> ExitCode
    ensures { (written : Bool) × (exit_status result ≡ status_of written) }
{
    let outcome = write_month_starts(&mut io::writer(rt));
    if let Err(e) = &outcome {
        let _ = eprintln!(rt; "month_starts: the output could not be written: {e}");
    }
    status(&outcome)
}
