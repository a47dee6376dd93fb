// What an opening writes: a book in which no row is in use and which keeps the dates of its month, and zeros into every table.
ghost use Rattle.std.specs.Prelude.{◌≡◌};
ghost use Rattle.calendar.specs.Gregorian.{InRange};
ghost use Rattle.rules.specs.Lent.{open_lists, SameLent};
ghost use Rattle.recording.specs.Opened.{named_book, fresh_book, cleared};

use calendar::{days_in_month, first_day};
use rules::{Book, OpenBook};

// A book that is to be opened: its month and counts, and no row is in use. The five numbers are what a caller has: a struct of them would
// be no plainer, a book without its six other numbers.
pub fn named_book(year: u64, month: u64, points: u64, suppliers: u64, elements: u64) -> Book
    ensures { result ≡ named_book year month points suppliers elements }
{
    Book {
        year,
        month,
        points,
        suppliers,
        elements,
        periods: 0,
        holders: 0,
        states: 0,
        round: 1,
        first: 0,
        days: 0,
    }
}

// The book of an opening, for another book's month and counts: no row is in use, the fixing comes next, and the month's first day and days
// are kept. Constant time.
pub fn fresh_book(book: Book) -> Book
    requires { InRange book.year book.month }
    ensures { result ≡ fresh_book book.year book.month book.points book.suppliers book.elements }
{
    Book {
        first: first_day(book.year, book.month),
        days: days_in_month(book.year, book.month),
        ..named_book(
            book.year,
            book.month,
            book.points,
            book.suppliers,
            book.elements,
        )
    }
}

// Every table that messages write is 0. Linear in what is lent.
pub fn clear_tables(opened: &mut OpenBook)
    ensures same { SameLent opened.old opened.new }
    ensures book { opened.new.book ≡ opened.old.book }
    ensures cleared { open_lists opened.new ≡ cleared (open_lists opened.old) }
{
    opened.links.fill(0);
    opened.holders.fill(0);
    opened.states.fill(0);
    opened.readings.fill(0);
    opened.blocks.fill(0);
    opened.lines.fill(0);
    opened.sent.fill(0);
}
