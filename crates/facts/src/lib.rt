// What the tables say of a point on a day: its holder, its state, whether that counts, who pays, up to which day a new link runs, and
// where the reading of an hour stands.
#![tactic(auto)]

ghost use Rattle.std.specs.Prelude.{◌≡◌, ◌<◌};
ghost use Rattle.rules.specs.Sizes.{most_points, end_of_days, holder_size, state_size};
ghost use Rattle.rules.specs.World.{connected_or_disconnected, every_state, counting_states, holder_on, state_on, reading_at};
ghost use Rattle.calendar.specs.Gregorian.{days_of_month, first_day};
ghost use Rattle.rules.specs.Whole.{Dated};
ghost use Rattle.rules.specs.Lent.{Lists, opening_in, lent_opening, lent_tables};
ghost use Rattle.tables.specs.Order.{LinkRows, ValueRows};
ghost use Rattle.facts.specs.Links.{link_ends, LinkFits};
ghost use Rattle.facts.specs.Payers.{payer_of, payer_on};
ghost use Rattle.facts.specs.Readings.{HourOfMonth};

use pricing::kind_of;
use rules::{
    Body, Book, CLOSED, CONNECTED, DISCONNECTED, HOLDER_SIZE, HOUR_PLACES,
    LAST_YEAR_OF_EVERY_STATE, Lent, NEW, STATE_SIZE,
};
use tables::{link_end, value_on};

// The holder of a point on a day, 0 where nobody holds it. Cost: logarithmic in the rows.
#[tactic(auto, unfolding(rules::specs::World::holder_on, rules::specs::World::rows_of))]
pub fn holder_on(lent: &Lent, point: u64, day: u64) -> u64
    requires holders { ValueRows holder_size lent.now.holders.now lent.now.book.holders }
    requires day { (point < most_points) × (day < end_of_days) }
    ensures { result ≡ holder_on (lent_tables lent.now) point day }
{
    let used = lent.book.holders as usize;
    value_on(&lent.holders[..used], HOLDER_SIZE, point, day)
}

// The state of a point on a day, 0 where it does not exist. Cost: logarithmic in the rows. One function over both would take what
// `tables::value_on` takes: the table, its count and its size.
#[tactic(auto, unfolding(rules::specs::World::state_on, rules::specs::World::rows_of))]
pub fn state_on(lent: &Lent, point: u64, day: u64) -> u64
    requires states { ValueRows state_size lent.now.states.now lent.now.book.states }
    requires day { (point < most_points) × (day < end_of_days) }
    ensures { result ≡ state_on (lent_tables lent.now) point day }
{
    let used = lent.book.states as usize;
    value_on(&lent.states[..used], STATE_SIZE, point, day)
}

// ---- which states count

// The states that count from 2019 on.
#[tactic(auto, unfolding(rules::specs::World::connected_or_disconnected))]
fn is_connected_or_disconnected(state: u64) -> bool
    ensures { result ≡ connected_or_disconnected state }
{
    state == CONNECTED || state == DISCONNECTED
}

// The states that count up to 2018: all four, which a point has once it exists.
#[tactic(auto, unfolding(rules::specs::World::every_state, rules::specs::Basics::within))]
fn is_existing(state: u64) -> bool
    ensures { result ≡ every_state state }
{
    (NEW..=CLOSED).contains(&state)
}

// Does a day in that state count, in a book of the year. Only here does the year choose.
#[tactic(auto, unfolding(rules::specs::World::counting_states))]
pub fn is_counting(year: u64, state: u64) -> bool
    ensures { result ≡ counting_states year state }
{
    if year <= LAST_YEAR_OF_EVERY_STATE {
        is_existing(state)
    } else {
        is_connected_or_disconnected(state)
    }
}

// ---- who pays

// The holder where the state counts in the year, else 0.
pub fn payer(year: u64, state: u64, holder: u64) -> u64
    ensures { result ≡ payer_of (counting_states year) state holder }
{
    if is_counting(year, state) { holder } else { 0 }
}

// Who pays for a point on a day. Cost: logarithmic in the rows.
#[tactic(auto, unfolding(crate::specs::Payers::payer_on))]
pub fn payer_on(lent: &Lent, point: u64, day: u64) -> u64
    requires holders { ValueRows holder_size lent.now.holders.now lent.now.book.holders }
    requires states { ValueRows state_size lent.now.states.now lent.now.book.states }
    requires day { (point < most_points) × (day < end_of_days) }
    ensures { result ≡ payer_on (counting_states lent.now.book.year) (lent_tables lent.now) point day }
{
    let year = lent.book.year;
    payer(
        year,
        state_on(lent, point, day),
        holder_on(lent, point, day),
    )
}

// ---- links

// Up to which day a new link runs; 0 for any other message. Cost: logarithmic in the rows.
pub fn link_ends(lent: &Lent, body: Body) -> u64
    requires links { LinkRows lent.now.links.now lent.now.book.periods }
    requires link_fits { LinkFits lent.now.element_data.now body }
    ensures { result ≡ link_ends (lent_opening lent.now) (lent_tables lent.now) body }
{
    match body {
        Body::Link {
            point,
            element,
            day,
            ..
        } => {
            let kind = kind_of(lent.element_data, element as usize);
            let used = lent.book.periods as usize;
            link_end(kind, &lent.links[..used], point, element, day)
        }
        _ => 0,
    }
}

// ---- the month

// The first day of a book's month. Constant time, as is the next.
pub fn month_first(book: Book) -> u64
    requires { Dated book }
    ensures { result ≡ first_day book.year book.month }
{
    book.first
}

// How many days a book's month has.
pub fn month_days(book: Book) -> u64
    requires { Dated book }
    ensures { result ≡ days_of_month book.year book.month }
{
    book.days
}

// ---- readings

// Where the reading of an hour stands. Constant time.
#[tactic(auto, unfolding(rules::specs::World::reading_at, rules::specs::World::month_first, rules::specs::World::month_days))]
pub fn reading_place(book: Book, point: u64, day: u64, hour: u64) -> usize
    requires { HourOfMonth book point day hour }
    ensures { (o : Lists) → result ≡ reading_at (opening_in book o) point day hour }
{
    let first = month_first(book);
    let days = month_days(book);
    let day_place = (point * days + (day - first)) as usize;
    day_place * HOUR_PLACES + hour as usize
}
