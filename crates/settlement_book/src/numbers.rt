// A book, a message and the answers as the numbers that the exported functions take and give.
ghost use Rattle.std.specs.Prelude.{◌≡◌, cond, eqb, length};
ghost use Rattle.rules.specs.Queries.{day_result_number};
ghost use Rattle.rules.specs.Answers.{number_of, line_result, day_result};
ghost use Rattle.rules.specs.Sizes.{line_size};
ghost use Rattle.settlement.specs.Replies.{count_of};
ghost use Rattle.settlement_book.specs.Numbers.{book_size, fields_size, book_in, numbers_in, fields_in};
ghost use Rattle.settlement_book.specs.Numbers.{line_after, InKrone, day_after};

use rules::{Book, END_OF_DAYS, Fields, Line, Refusal};

// ---- a book and a message

// The numbers of a book, and of a message.
pub const BOOK_SIZE: usize = 11;

pub const FIELDS_SIZE: usize = 9;

// No `From` can stand here, since `Book` and `Fields` are types of `rules`; a slice of any length is what C lends.
pub fn book_of(numbers: &[u64]) -> Book
    requires { length numbers.now ≡ book_size }
    ensures { result ≡ book_in numbers.now }
{
    Book {
        year: numbers[0],
        month: numbers[1],
        points: numbers[2],
        suppliers: numbers[3],
        elements: numbers[4],
        periods: numbers[5],
        holders: numbers[6],
        states: numbers[7],
        round: numbers[8],
        first: numbers[9],
        days: numbers[10],
    }
}

pub fn put_book(numbers: &mut [u64], book: Book)
    requires { length numbers.old ≡ book_size }
    ensures { numbers.new ≡ numbers_in book }
{
    numbers.copy_from_slice(&[
        book.year,
        book.month,
        book.points,
        book.suppliers,
        book.elements,
        book.periods,
        book.holders,
        book.states,
        book.round,
        book.first,
        book.days,
    ]);
}

pub fn fields_of(numbers: &[u64]) -> Fields
    requires { length numbers.now ≡ fields_size }
    ensures { result ≡ fields_in numbers.now }
{
    Fields {
        kind: numbers[0],
        role: numbers[1],
        sender: numbers[2],
        received: numbers[3],
        point: numbers[4],
        element: numbers[5],
        day: numbers[6],
        hour: numbers[7],
        value: numbers[8],
    }
}

// ---- answers

// The question that says no, which writes nothing; or 0, with the numbers of the book that a message leaves and how many records there are.
pub fn put_reply(
    reply: Result<usize, Refusal>,
    after: Book,
    book: &mut [u64],
    count: &mut u64,
) -> u64
    requires { length book.old ≡ book_size }
    ensures number { result ≡ number_of reply }
    ensures book { book.new ≡ cond (eqb (number_of reply) 0) (numbers_in after) book.old }
    ensures count { count.new ≡ cond (eqb (number_of reply) 0) (count_of reply) count.old }
{
    match reply {
        Ok(records) => {
            put_book(book, after);
            *count = records as u64;
            0
        }
        Err(refusal) => refusal.number(),
    }
}

// The line's three numbers, or the question that says no; a refusal writes nothing.
#[tactic(auto, unfolding(rules::specs::Queries::line_refused))]
pub fn put_line(answer: Result<Line, Refusal>, line: &mut [i64]) -> u64
    requires { (length line.old ≡ line_size) × InKrone answer }
    ensures { (result ≡ (line_result answer).number) × (line.new ≡ line_after answer line.old) }
{
    match answer {
        Ok(found) => {
            line.copy_from_slice(&[found.quantity, found.kroner, found.billionths as i64]);
            0
        }
        Err(refusal) => refusal.number(),
    }
}

// The day, 36,525 for none, or the question that says no; a refusal writes nothing.
pub fn put_day(answer: Result<Option<u64>, Refusal>, day: &mut u64) -> u64
    ensures { (result ≡ day_result_number (day_result answer)) × (day.new ≡ day_after (day_result answer) day.old) }
{
    match answer {
        Ok(found) => {
            *day = found.unwrap_or(END_OF_DAYS);
            0
        }
        Err(refusal) => refusal.number(),
    }
}
