// Question 2: is the month within 2000 to 2099 and every count within its limit.
ghost use Rattle.std.specs.Prelude.{◌≡◌, ◌&&◌};
ghost use Rattle.rules.specs.Basics.{within};
ghost use Rattle.rules.specs.Sizes.{most_elements, most_points, most_suppliers};
ghost use Rattle.rules.specs.WellFormed.{within_limits, rows_fit};
ghost use Rattle.rules.specs.Lent.{Lists, opening_in, tables_in};

use calendar::{FIRST_YEAR, LAST_YEAR, YEAR_MONTHS};
use rules::{Book, MOST_ELEMENTS, MOST_POINTS, MOST_SUPPLIERS, PLACES};

#[tactic(auto, unfolding(rules::specs::Basics::within))]
fn counts_limited(book: Book) -> bool
    ensures { result ≡ within 1 most_points book.points
        && (within 1 most_suppliers book.suppliers && within 1 most_elements book.elements) }
{
    (1..=MOST_POINTS).contains(&book.points)
        && (1..=MOST_SUPPLIERS).contains(&book.suppliers)
        && (1..=MOST_ELEMENTS).contains(&book.elements)
}

// The month is one of the calendar, and every count within its limit.
#[tactic(auto, unfolding(rules::specs::WellFormed::within_limits, rules::specs::Basics::within))]
pub fn is_limited(book: Book) -> bool
    ensures { (o : Lists) → result ≡ within_limits (opening_in book o) }
{
    (FIRST_YEAR..=LAST_YEAR).contains(&book.year)
        && (1..=YEAR_MONTHS).contains(&book.month)
        && counts_limited(book)
}

// So are the rows in use.
#[tactic(auto, unfolding(rules::specs::WellFormed::rows_fit))]
pub fn rows_fit(book: Book) -> bool
    ensures { (o : Lists) → result ≡ rows_fit (tables_in book o) }
{
    let most = PLACES as u64;
    book.periods <= most && book.holders <= most && book.states <= most
}
