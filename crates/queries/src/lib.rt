// The queries of a book that is well formed: the line of a supplier and an element, the periods of a point and an element, and the
// earliest day without a holder. Each asks its own questions, 6 to 8, but for the periods, which are handed the answer to theirs.
// Each public one takes the parts of the book that the `settlement_book_*_within` of its name has from C, and so no `Lent`.
#![tactic(auto)]

ghost use Rattle.std.specs.Prelude.{◌≡◌, ◌≢◌, [], ◌+◌, ◌-◌, ◌*◌, ◌≤◌, ◌<◌, ltb};
ghost use Rattle.rules.specs.Basics.{within, any_to};
ghost use Rattle.rules.specs.Sizes.{end_of_days, line_size, most_elements, most_points, most_suppliers};
ghost use Rattle.rules.specs.World.{linked_on};
ghost use Rattle.rules.specs.Effects.{ask};
ghost use Rattle.rules.specs.Queries.{periods_number, periods_query, periods_read, lacks_holder};
ghost use Rattle.rules.specs.Queries.{earliest_without_holder, day_query};
ghost use Rattle.rules.specs.Answers.{number_of, day_result};
ghost use Rattle.rules.specs.Whole.{Whole};
ghost use Rattle.rules.specs.Lent.{Lists, world_in, lend_links, lend_rows, lend_lines, lent_opening, lent_tables};
ghost use Rattle.tables.specs.Order.{LinkRows, PairFits};
ghost use Rattle.queries.specs.Promises.{LineAnswered, PeriodsAt};
ghost use Rattle.queries.specs.Days.{PointAsked};
ghost use Rattle.queries.specs.PairSearch.{PairFound};

pub mod sums;

use facts::{holder_on, is_counting, month_days, month_first, state_on};
use ledger::lines::line_at;
use rules::{Book, LINE_SIZE, Lent, Line, Refusal};
use tables::{pack_period, pair_bound, quantity_on};
use validation::questions::{ask, ask_element, ask_point};

// ---- the line query

// Question 6 of the supplier number, then question 8.
#[tactic(auto, unfolding(rules::specs::Effects::ask, rules::specs::Basics::within))]
fn ask_line(book: Book, supplier: u64, element: u64) -> Result<(), Refusal>
    ensures { number_of result ≡ ask (within 1 book.suppliers supplier) 6 (ask (ltb element book.elements) 8 0) }
{
    ask(
        (1..=book.suppliers).contains(&supplier),
        Refusal::OutOfRange,
    )?;
    ask_element(book, element)
}

// Where a supplier's lines begin, counted in lines.
fn first_line(elements: u64, supplier: u64) -> usize
    requires { (1 ≤ supplier) × (supplier ≤ most_suppliers) × (elements ≤ most_elements) }
    ensures { result ≡ (supplier - 1) * elements }
{
    ((supplier - 1) * elements) as usize
}

// Where a line's three numbers begin.
fn line_place(elements: u64, supplier: u64, element: u64) -> usize
    requires le_supplier { (1 ≤ supplier) × (supplier ≤ most_suppliers) }
    requires elements_le_most_elements { (elements ≤ most_elements) × (element < elements) }
    ensures { result ≡ ((supplier - 1) * elements + element) * line_size }
{
    (first_line(elements, supplier) + element as usize) * LINE_SIZE
}

// The line of a supplier and an element: the quantity and the amount. Constant time.
pub fn line(book: Book, lines: &[i64], supplier: u64, element: u64) -> Result<Line, Refusal>
    requires { (o : Lists) × Whole (world_in book (lend_lines lines.now o)) }
    ensures { (o : Lists) →
        let w = world_in book (lend_lines lines.now o) in
        Whole w → LineAnswered w supplier element result }
{
    ask_line(book, supplier, element)?;
    Ok(line_at(lines, line_place(book.elements, supplier, element)))
}

// ---- the periods of a point and element

// A part of the link table: the place of its first row, how many rows it has, and how many were read to find it.
#[derive(Clone, Copy)]
pub struct Part {
    pub place: usize,
    pub count: usize,
    pub read: usize,
}

// The search for everything recorded for a point and an element. It reads the rows lent, in order or not, from the first on, each once, and
// ends at the first beyond the point and element. Linear in the rows read.
pub fn search_pair(rows: &[u64], point: u64, element: u64) -> Part
    requires { PairFits point element }
    ensures { PairFound point element rows.now result.place result.count result.read }
{
    let first = pack_period(point, element, 0, 0, 0);
    let bound = pair_bound(point, element);
    let mut place = 0;
    for (read, word) in rows.iter().enumerate() {
        if bound <= *word {
            return Part {
                place,
                count: read - place,
                read: read + 1,
            };
        }
        if *word < first {
            place += 1;
        }
    }
    Part {
        place,
        count: rows.len() - place,
        read: rows.len(),
    }
}

// Where everything recorded for a point and an element stands in the link table, for a query that has passed its questions: 2 to 5 of the
// book, then 7 and 8. Linear in the rows up to the first beyond the point and element.
pub fn periods_place(book: Book, links: &[u64], point: u64, element: u64) -> Part
    requires { (o : Lists) × periods_number (world_in book (lend_links links.now o)) point element ≡ 0 }
    ensures { (o : Lists) →
        let w = world_in book (lend_links links.now o) in
        periods_number w point element ≡ 0
        → PeriodsAt w point element result.place result.count × (result.read ≡ periods_read w point element) }
{
    search_pair(&links[..book.periods as usize], point, element)
}

// What the query for periods finds: that part of the link table, and how many rows were read to find it.
#[derive(Clone, Copy)]
pub struct FoundPeriods<'a> {
    pub rows: &'a [u64],
    pub read: usize,
}

// Everything recorded for a point and an element, and how many periods were read; the empty part and 0 where the query is refused, as
// `periods_query` has it. `asked` is what its questions have answered: 2 to 5 of the book, then 7 and 8
// (`validation::questions::ask_pair`). Linear in the rows up to the first beyond the point and element.
pub fn periods<'a>(
    asked: Result<(), Refusal>,
    book: Book,
    links: &'a [u64],
    point: u64,
    element: u64,
) -> FoundPeriods<'a>
    requires { number_of asked ≡ 0 → ((o : Lists) × periods_number (world_in book (lend_links links.now o)) point element ≡ 0) }
    ensures answers { (o : Lists) →
        let w = world_in book (lend_links links.now o) in
        number_of asked ≡ periods_number w point element
        → (result.rows.now ≡ periods_query w point element) × (result.read ≡ periods_read w point element) }
    ensures refused { number_of asked ≢ 0 → (result.rows.now ≡ []) × (result.read ≡ 0) }
{
    if asked.is_err() {
        return FoundPeriods { rows: &[], read: 0 };
    }
    let Part { place, count, read } = periods_place(book, links, point, element);
    let end = place + count;
    FoundPeriods {
        rows: &links[place..end],
        read,
    }
}

// ---- the earliest day without a holder

// Is some element linked to the point that day. At most 64 searches, each logarithmic in the rows.
fn has_link(lent: &Lent, point: u64, day: u64) -> bool
    requires links { LinkRows lent.now.links.now lent.now.book.periods }
    requires day { (point < most_points) × (lent.now.book.elements ≤ most_elements) × (day < end_of_days) }
    ensures { result ≡ any_to (λ e. linked_on (lent_tables lent.now) point e day) lent.now.book.elements }
{
    let rows = &lent.links[..lent.book.periods as usize];
    (0..lent.book.elements).any(|element| quantity_on(rows, point, element, day) != 0)
}

// Does the point count on the day but for a missing holder, and have a link. A search for the holder; where there is none, one for the
// state; where that counts, one for each element up to the first that is linked.
#[tactic(auto, using(rules::proofs::Tests::tests), unfolding(rules::specs::Queries::lacks_holder))]
fn lacks_holder(lent: &Lent, point: u64, day: u64) -> bool
    requires asked { PointAsked lent.now point }
    requires day { day < end_of_days }
    ensures { result ≡ lacks_holder (lent_opening lent.now) (lent_tables lent.now) point day }
{
    holder_on(lent, point, day) == 0
        && is_counting(lent.book.year, state_on(lent, point, day))
        && has_link(lent, point, day)
}

// The earliest such day of the month. Linear in the days up to it, or in those of the month where there is none, each at the cost above.
fn find_day(lent: &Lent, point: u64) -> Option<u64>
    requires { PointAsked lent.now point }
    ensures { result ≡ earliest_without_holder (lent_opening lent.now) (lent_tables lent.now) point }
{
    let first = month_first(lent.book);
    let days = month_days(lent.book);
    (first..first + days).find(|day| lacks_holder(lent, point, *day))
}

// The earliest day of the month on which the point counts but for a missing holder and has a link. Linear in the days up to it, or in those
// of the month where there is none. A day that is held takes one search, logarithmic in the rows, another up to 66 (`lacks_holder`).
pub fn day_without_holder(
    book: Book,
    links: &[u64],
    holders: &[u64],
    states: &[u64],
    point: u64,
) -> Result<Option<u64>, Refusal>
    requires { (o : Lists) × Whole (world_in book (lend_rows links.now holders.now states.now o)) }
    ensures { (o : Lists) →
        let w = world_in book (lend_rows links.now holders.now states.now o) in
        Whole w → day_result result ≡ day_query w point }
{
    ask_point(book, point)?;
    // the search looks at no other table
    let lent = Lent {
        book,
        element_data: &[],
        prices: &[],
        links,
        holders,
        states,
        readings: &[],
        blocks: &[],
        lines: &[],
        sent: &[],
    };
    Ok(find_day(&lent, point))
}
