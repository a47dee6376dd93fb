// Rows of packed words in lent tables: fields, search, insertion, removal, what the rows say of a day, and question 5 of a table.
// A table is a slice of 1,024 words, of which the first `used` are rows; the rows are strictly increasing. What only reads is lent the
// rows alone. What writes is lent the whole table and the number of its rows: memory is fixed, so a new row goes into a free place behind
// them, and the number is the book's.
#![tactic(auto)]

ghost use Rattle.std.specs.Prelude.{◌≡◌, ◌+◌, ◌-◌, ◌*◌, ◌/◌, ◌≤◌, ◌<◌, cond, leb, eqb, ◌∷◌, ◌++◌, length, take, drop, position};
ghost use Rattle.std.specs.List.{find, list_all};
ghost use Rattle.rules.specs.Rows.{pack_period, period_point, period_element, period_first, period_end, period_quantity, of_pair, covers};
ghost use Rattle.rules.specs.Rows.{quantity_on, starts_on, next_start, pair_rows, insert_row, stop_rows, split_rows};
ghost use Rattle.rules.specs.Rows.{pack_value, value_point, value_first, value_of, recorded_on, record_row};
ghost use Rattle.rules.specs.Sizes.{most_points, places, element_size, element_room, day_room, quantity_room};
ghost use Rattle.rules.specs.Basics.{latest, chained};
ghost use Rattle.rules.specs.Lines.{fee};
ghost use Rattle.rules.specs.World.{table_of};
ghost use Rattle.rules.specs.WellFormed.{period_right, apart, value_right, earlier, table_right, links_right, holders_right, states_right};
ghost use Rattle.tables.specs.Order.{point_room, InOrder, PeriodRows, DatedRows, OrderedRows, LinkRows, ValueRows, ClearBehind};
ghost use Rattle.tables.specs.Order.{PairFits, DayFits, PointFits};
ghost use Rattle.tables.specs.Tests.{kind_allows, days_right};
ghost use Rattle.tables.specs.Search.{rows_below, is_given, end_on, next_recorded};
ghost use Rattle.tables.specs.Search.{Changed, cut_row, cut_before, put_in, without};
ghost use Rattle.tables.specs.RowRange.{point_rows};
ghost use Rattle.rules.specs.Lent.{Lists, no_lists, opening_in, lend_data};

use rules::{
    Book, CLOSED, DAY_ROOM, ELEMENT_ROOM, ELEMENT_SIZE, ELEMENT_UNIT, END_OF_DAYS, END_UNIT, FEE,
    FIRST_UNIT, HOLDER_SIZE, MOST_QUANTITY, NEW, POINT_UNIT, QUANTITY_ROOM, STATE_SIZE, TARIFF,
};

// ---- fields, in constant time

#[tactic(auto, unfolding(rules::specs::Rows::period_point))]
pub fn point_of(word: u64) -> u64
    ensures { result ≡ period_point word }
{
    word / POINT_UNIT
}

#[tactic(auto, unfolding(rules::specs::Rows::period_element))]
pub fn element_of(word: u64) -> u64
    ensures { result ≡ period_element word }
{
    word / ELEMENT_UNIT % ELEMENT_ROOM
}

#[tactic(auto, unfolding(rules::specs::Rows::period_first))]
pub fn first_of(word: u64) -> u64
    ensures { result ≡ period_first word }
{
    word / FIRST_UNIT % DAY_ROOM
}

#[tactic(auto, unfolding(rules::specs::Rows::period_end))]
pub fn end_of(word: u64) -> u64
    ensures { result ≡ period_end word }
{
    word / END_UNIT % DAY_ROOM
}

#[tactic(auto, unfolding(rules::specs::Rows::period_quantity))]
pub fn quantity_of(word: u64) -> u64
    ensures { result ≡ period_quantity word }
{
    word % QUANTITY_ROOM
}

#[tactic(auto, unfolding(rules::specs::Rows::pack_period))]
pub fn pack_period(point: u64, element: u64, first: u64, end: u64, quantity: u64) -> u64
    requires { (point < point_room) × (element < element_room)
        × (first < day_room) × (end < day_room) × (quantity < quantity_room) }
    ensures { result ≡ pack_period point element first end quantity }
{
    (((point * ELEMENT_ROOM + element) * DAY_ROOM + first) * DAY_ROOM + end) * QUANTITY_ROOM
        + quantity
}

// The first word behind those of a point and element.
#[tactic(auto, unfolding(rules::specs::Rows::pack_period))]
pub fn pair_bound(point: u64, element: u64) -> u64
    requires { PairFits point element }
    ensures { result ≡ pack_period point (element + 1) 0 0 0 }
{
    (point * ELEMENT_ROOM + element + 1) * ELEMENT_UNIT
}

#[tactic(auto, unfolding(rules::specs::Rows::value_point))]
pub fn value_point_of(size: u64, word: u64) -> u64
    requires { 0 < size }
    ensures { result ≡ value_point size word }
{
    word / size / DAY_ROOM
}

#[tactic(auto, unfolding(rules::specs::Rows::value_first))]
pub fn value_first_of(size: u64, word: u64) -> u64
    requires { 0 < size }
    ensures { result ≡ value_first size word }
{
    word / size % DAY_ROOM
}

#[tactic(auto, unfolding(rules::specs::Rows::value_of))]
pub fn value_of(size: u64, word: u64) -> u64
    requires { 0 < size }
    ensures { result ≡ value_of size word }
{
    word % size
}

pub fn pack_value(size: u64, point: u64, first: u64, value: u64) -> u64
    requires point_fits { PointFits size point }
    requires first_lt_day_room { (first < day_room) × (value < size) }
    ensures { result ≡ pack_value size point first value }
{
    (point * DAY_ROOM + first) * size + value
}

// Is the row one of the point and element.
#[tactic(auto, unfolding(rules::specs::Rows::of_pair))]
pub fn of_pair(word: u64, point: u64, element: u64) -> bool
    ensures { result ≡ of_pair point element word }
{
    point_of(word) == point && element_of(word) == element
}

// Does the row cover the day for the point and element: the end day is the first day after.
#[tactic(auto, unfolding(rules::specs::Rows::covers))]
pub fn covers_day(word: u64, point: u64, element: u64, day: u64) -> bool
    ensures { result ≡ covers point element day word }
{
    of_pair(word, point, element) && first_of(word) <= day && day < end_of(word)
}

// ---- search

// How many rows are below the word. Logarithmic in the rows.
pub fn place(rows: &[u64], word: u64) -> usize
    requires { InOrder rows.now }
    ensures is { result ≡ rows_below word rows.now }
    ensures within { result ≤ length rows.now }
{
    // halved by hand: by `partition_point` messages about states and the query for days took 1.4 to 2.3 times as long
    let mut low = 0;
    let mut high = rows.len();
    while low < high {
        let middle = low + (high - low) / 2;
        if rows[middle] < word {
            low = middle + 1;
        } else {
            high = middle;
        }
    }
    low
}

// The first row that is not below the word. Logarithmic in the rows.
pub fn row_from(rows: &[u64], word: u64) -> Option<u64>
    requires { InOrder rows.now }
    ensures { result ≡ find (λ row. leb word row) rows.now }
{
    rows.get(place(rows, word)).copied()
}

// The place of the row that covers the day. Logarithmic in the rows: periods are apart, so only the last that starts by then can cover
// it.
pub fn covering_place(rows: &[u64], point: u64, element: u64, day: u64) -> Option<usize>
    requires period_rows { PeriodRows rows.now }
    requires pair_fits { PairFits point element }
    requires day_fits { DayFits day }
    ensures { result ≡ position (covers point element day) rows.now }
{
    let last = place(rows, pack_period(point, element, day + 1, 0, 0)).checked_sub(1)?;
    covers_day(rows[last], point, element, day).then_some(last)
}

// ---- insertion and removal

// The word goes to the front, every word moves down by one, the last falls off: one memory move, since both places of it are constants.
// Linear in the words lent.
pub fn shift_down(tail: &mut [u64], word: u64)
    requires { 0 < length tail.old }
    ensures { tail.new ≡ word ∷ take (length tail.old - 1) tail.old }
{
    let last = tail.len() - 1;
    tail.copy_within(..last, 1);
    tail[0] = word;
}

// The word goes in at a place; the rows from there on, and the first free place behind them, are lent on to be shifted.
// Linear in the rows behind the place.
pub fn insert_at(table: &mut [u64], used: usize, at: usize, word: u64)
    requires clear_behind { ClearBehind table.old used }
    requires at_le_used { (at ≤ used) × (used < places) }
    ensures { table.new ≡ (table_of (put_in at word (take used table.old))).words }
{
    shift_down(&mut table[at..used + 1], word);
}

// The word goes in at its place. The search is logarithmic in the rows, the rest linear in the rows behind the place.
#[tactic(auto, using(crate::proofs::Found::insert_put))]
pub fn insert(table: &mut [u64], used: usize, word: u64)
    requires clear_behind { ClearBehind table.old used }
    requires ordered_rows { OrderedRows table.old used }
    requires used_lt_places { used < places }
    ensures { table.new ≡ (table_of (insert_row word (take used table.old))).words }
{
    let at = place(&table[..used], word);
    insert_at(table, used, at, word);
}

// The words behind the first `gap` places move up to the front, the last `gap` stand. Linear in the words lent.
fn close_up(tail: &mut [u64], gap: usize)
    requires { gap ≤ length tail.old }
    ensures { tail.new ≡ drop gap tail.old ++ drop (length tail.old - gap) tail.old }
{
    // a single place, which is the most usual gap, is closed in one memory move, by constants; any other width in a loop
    if gap == 1 {
        tail.copy_within(1.., 0);
    } else {
        tail.copy_within(gap.., 0);
    }
}

// The rows from one place up to another go: those behind them are closed up, and the freed places become 0. How many rows there
// are then. Linear in the rows from the first of the two places on; nothing is written where no row goes.
pub fn remove(table: &mut [u64], used: usize, from: usize, to: usize) -> usize
    requires clear_behind { ClearBehind table.old used }
    requires from_le_to { (from ≤ to) × (to ≤ used) }
    ensures { Changed (without from to (take used table.old)) table.new result }
{
    if from == to {
        return used;
    }
    let gap = to - from;
    close_up(&mut table[from..used], gap);
    let end = used - gap;
    table[end..used].fill(0);
    end
}

// ---- a stop, a new quantity, a new dated value

// A period of the pair that runs past the day, ended on it; any other row as it is. Constant time.
#[tactic(auto, using(rules::proofs::Words::first_lt, rules::proofs::Words::quantity_lt), unfolding(crate::specs::Search::cut_row))]
fn cut(word: u64, point: u64, element: u64, day: u64) -> u64
    requires pair_fits { PairFits point element }
    requires day_fits { DayFits day }
    ensures { result ≡ cut_row point element day word }
{
    if of_pair(word, point, element) && day < end_of(word) {
        pack_period(point, element, first_of(word), day, quantity_of(word))
    } else {
        word
    }
}

// The row before a place, so ended. Constant time.
#[tactic(auto, unfolding(crate::specs::Search::cut_before))]
fn cut_before(table: &mut [u64], at: usize, point: u64, element: u64, day: u64)
    requires at_in_bounds { at ≤ length table.old }
    requires pair_fits { PairFits point element }
    requires day_fits { DayFits day }
    ensures { table.new ≡ cut_before point element day at table.old }
{
    if let Some(last) = at.checked_sub(1) {
        table[last] = cut(table[last], point, element, day);
    }
}

// Every day from the day on becomes unlinked: the periods that start then or later go, the one that covers the day ends there.
// How many rows there are then. The search is logarithmic in the rows, the rest linear in the rows behind the first that goes.
pub fn stop(table: &mut [u64], used: usize, point: u64, element: u64, day: u64) -> usize
    requires clear_behind { ClearBehind table.old used }
    requires link_rows { LinkRows table.old used }
    requires pair_fits { PairFits point element }
    requires day_fits { DayFits day }
    ensures { Changed (stop_rows point element day (take used table.old)) table.new result }
{
    let rows = &table[..used];
    let from = place(rows, pack_period(point, element, day, 0, 0));
    let to = place(rows, pair_bound(point, element));
    cut_before(table, from, point, element, day);
    remove(table, used, from, to)
}

// From the day on the period that covers it has another quantity: it is cut in two, unless it starts that day.
// How many rows there are then. The search is logarithmic in the rows, the rest linear in the rows behind the period.
pub fn split(
    table: &mut [u64],
    used: usize,
    point: u64,
    element: u64,
    day: u64,
    quantity: u64,
) -> usize
    requires clear_behind { ClearBehind table.old used }
    requires link_rows { LinkRows table.old used }
    requires pair_fits { PairFits point element }
    requires day_fits { DayFits day }
    requires quantity_lt_quantity_room { quantity < quantity_room }
    requires table_len_bound { length (split_rows point element day quantity (take used table.old)) ≤ places }
    ensures { Changed (split_rows point element day quantity (take used table.old)) table.new result }
{
    let Some(at) = covering_place(&table[..used], point, element, day) else {
        return used;
    };
    let word = table[at];
    let from_day = pack_period(point, element, day, end_of(word), quantity);
    if first_of(word) == day {
        table[at] = from_day;
        return used;
    }
    table[at] = pack_period(point, element, first_of(word), day, quantity_of(word));
    insert_at(table, used, at + 1, from_day);
    used + 1
}

// A dated value goes in at its place, or replaces the one of the same point and day. How many rows there are then.
// The search is logarithmic in the rows, the rest linear in the rows behind the place.
pub fn record_value(table: &mut [u64], used: usize, size: u64, word: u64) -> usize
    requires clear_behind { ClearBehind table.old used }
    requires value_rows { ValueRows size table.old used }
    requires size_nonzero { 0 < size }
    requires table_len_bound { length (record_row size word (take used table.old)) ≤ places }
    ensures { Changed (record_row size word (take used table.old)) table.new result }
{
    let key = word / size;
    let at = place(&table[..used], key * size);
    if at < used && table[at] / size == key {
        table[at] = word;
        return used;
    }
    insert_at(table, used, at, word);
    used + 1
}

// ---- what the rows say of a day, each in time logarithmic in the rows

// The row that covers the day.
#[tactic(auto, using(crate::proofs::Days::found_row, crate::proofs::Days::found_none))]
fn covering_row(rows: &[u64], point: u64, element: u64, day: u64) -> Option<u64>
    requires period_rows { PeriodRows rows.now }
    requires pair_fits { PairFits point element }
    requires day_fits { DayFits day }
    ensures { result ≡ find (covers point element day) rows.now }
{
    let at = covering_place(rows, point, element, day)?;
    Some(rows[at])
}

// The quantity linked on the day, 0 where the element is not linked: the rules' definition says 0 for none, as do the next two.
#[tactic(auto, using(crate::proofs::Days::quantity_covering))]
pub fn quantity_on(rows: &[u64], point: u64, element: u64, day: u64) -> u64
    requires period_rows { PeriodRows rows.now }
    requires pair_fits { PairFits point element }
    requires day_fits { DayFits day }
    ensures { result ≡ quantity_on rows.now point element day }
{
    covering_row(rows, point, element, day).map_or(0, quantity_of)
}

// The end of the period that covers the day, 0 where none does. What `quantity_on` and it share is `covering_row`.
#[tactic(auto, using(crate::proofs::Days::end_covering))]
pub fn period_end(rows: &[u64], point: u64, element: u64, day: u64) -> u64
    requires period_rows { PeriodRows rows.now }
    requires pair_fits { PairFits point element }
    requires day_fits { DayFits day }
    ensures { result ≡ end_on rows.now point element day }
{
    covering_row(rows, point, element, day).map_or(0, end_of)
}

// The value in force on the day: the latest recorded for the point up to it, 0 where none is.
pub fn value_on(rows: &[u64], size: u64, point: u64, day: u64) -> u64
    requires dated_rows { DatedRows size rows.now }
    requires point_fits { PointFits size point }
    requires day_fits { DayFits day }
    ensures { result ≡ latest (recorded_on size rows.now point) day }
{
    let after = place(rows, pack_value(size, point, day + 1, 0));
    match rows[..after].last() {
        Some(&row) if value_point_of(size, row) == point => value_of(size, row),
        _ => 0,
    }
}

// Is a value recorded for that very point and day.
pub fn recorded(rows: &[u64], size: u64, point: u64, day: u64) -> bool
    requires dated_rows { DatedRows size rows.now }
    requires point_fits { PointFits size point }
    requires day_fits { DayFits day }
    ensures { result ≡ is_given (recorded_on size rows.now point day) }
{
    row_from(rows, pack_value(size, point, day, 0)).is_some_and(|row| value_point_of(size, row)
        == point
        && value_first_of(size, row) == day)
}

// The first day after the day for which a value is recorded for the point, or the end of days.
pub fn next_record(rows: &[u64], size: u64, point: u64, day: u64) -> u64
    requires dated_rows { DatedRows size rows.now }
    requires point_fits { PointFits size point }
    requires day_fits { DayFits day }
    ensures { result ≡ next_recorded size rows.now point day }
{
    match row_from(rows, pack_value(size, point, day + 1, 0)) {
        Some(row) if value_point_of(size, row) == point => {
            value_first_of(size, row).min(END_OF_DAYS)
        }
        _ => END_OF_DAYS,
    }
}

// The first day after the day on which a period of the point and element starts, or the end of days. A period is a dated value of
// the pair whose value is its end and quantity.
#[tactic(auto, using(crate::proofs::Starts::period_dated, crate::proofs::Starts::pair_fits, crate::proofs::Starts::next_dated))]
pub fn next_start(rows: &[u64], point: u64, element: u64, day: u64) -> u64
    requires period_rows { PeriodRows rows.now }
    requires pair_fits { PairFits point element }
    requires day_fits { DayFits day }
    ensures { result ≡ next_start rows.now point element day }
{
    next_record(rows, FIRST_UNIT, point * ELEMENT_ROOM + element, day)
}

// The day up to which a link runs: a fee covers its own day, another element runs up to its next period. Cost: logarithmic in the rows.
pub fn link_end(kind: u64, rows: &[u64], point: u64, element: u64, day: u64) -> u64
    requires period_rows { PeriodRows rows.now }
    requires pair_fits { PairFits point element × DayFits day }
    ensures { result ≡ cond (eqb kind fee) (day + 1) (next_start rows.now point element day) }
{
    if kind == FEE {
        day + 1
    } else {
        next_start(rows, point, element, day)
    }
}

// Does a period of the point and element start that day.
#[tactic(auto, using(crate::proofs::Starts::period_dated, crate::proofs::Starts::pair_fits, crate::proofs::Starts::starts_dated))]
pub fn starts_on(rows: &[u64], point: u64, element: u64, day: u64) -> bool
    requires period_rows { PeriodRows rows.now }
    requires pair_fits { PairFits point element }
    requires day_fits { DayFits day }
    ensures { result ≡ starts_on rows.now point element day }
{
    recorded(rows, FIRST_UNIT, point * ELEMENT_ROOM + element, day)
}

// Everything recorded for one point and element: that part of the rows, not a copy. Two searches.
pub fn pair_part(rows: &[u64], point: u64, element: u64) -> &[u64]
    requires period_rows { PeriodRows rows.now }
    requires pair_fits { PairFits point element }
    ensures { result.now ≡ pair_rows point element rows.now }
{
    let from = place(rows, pack_period(point, element, 0, 0, 0));
    let to = place(rows, pair_bound(point, element));
    &rows[from..to]
}

// Everything recorded for one point: that part of the rows, not a copy.
pub fn point_part(rows: &[u64], point: u64) -> &[u64]
    requires period_rows { PeriodRows rows.now }
    requires point_lt_most_points { point < most_points }
    ensures { result.now ≡ point_rows point rows.now }
{
    let from = place(rows, point * POINT_UNIT);
    let to = place(rows, (point + 1) * POINT_UNIT);
    &rows[from..to]
}

// ---- question 5 of a table of arbitrary words

// Is every word 0. Linear in the words.
fn are_zero(words: &[u64]) -> bool
    ensures { result ≡ list_all (λ word. eqb word 0) words.now }
{
    words.iter().all(|word| *word == 0)
}

// Fees are one day long, tariff quantities 1. Constant time.
fn kind_allows(kind: u8, first: u64, end: u64, quantity: u64) -> bool
    requires { first < day_room }
    ensures { result ≡ kind_allows kind first end quantity }
{
    match u64::from(kind) {
        FEE => end == first + 1,
        TARIFF => quantity == 1,
        _ => true,
    }
}

// Is a period right by itself. Constant time.
#[tactic(auto, using(rules::proofs::Words::first_lt), unfolding(rules::specs::WellFormed::period_right, rules::specs::World::kind_of))]
fn period_right(book: Book, element_data: &[u8], word: u64) -> bool
    requires { length element_data.now ≡ book.elements * element_size }
    ensures { result ≡ period_right (opening_in book (lend_data element_data.now no_lists)) word }
{
    let element = element_of(word);
    let first = first_of(word);
    let end = end_of(word);
    let quantity = quantity_of(word);
    point_of(word) < book.points
        && element < book.elements
        && days_right(first, end, quantity)
        && kind_allows(
            element_data[element as usize * ELEMENT_SIZE],
            first,
            end,
            quantity,
        )
}

// Has a period a day, an end within the calendar and a quantity from 1 to 999. Constant time.
#[tactic(auto, unfolding(rules::specs::Basics::within))]
fn days_right(first: u64, end: u64, quantity: u64) -> bool
    ensures { result ≡ days_right first end quantity }
{
    first < end && end <= END_OF_DAYS && (1..=MOST_QUANTITY).contains(&quantity)
}

// Are two periods in order, and without overlap where both are of one point and element. Constant time.
#[tactic(auto, unfolding(rules::specs::WellFormed::apart))]
fn are_apart(word: u64, next: u64) -> bool
    ensures { result ≡ apart word next }
{
    word < next
        && (!of_pair(word, point_of(next), element_of(next)) || end_of(word) <= first_of(next))
}

// Are periods in order, and without overlap. Linear in the rows.
fn periods_apart(rows: &[u64]) -> bool
    ensures { result ≡ chained apart rows.now }
{
    rows.is_sorted_by(|row, next| are_apart(*row, *next))
}

// Is each period right by itself. Linear in the rows.
fn periods_right(book: Book, element_data: &[u8], rows: &[u64]) -> bool
    requires { length element_data.now ≡ book.elements * element_size }
    ensures { result ≡ list_all (period_right (opening_in book (lend_data element_data.now no_lists))) rows.now }
{
    rows.iter()
        .all(|row| period_right(book, element_data, *row))
}

// Question 5 of the table of links. Linear in the places.
pub fn links_right(book: Book, element_data: &[u8], table: &[u64], used: usize) -> bool
    requires element_data_len { length element_data.now ≡ book.elements * element_size }
    requires used_in_bounds { used ≤ length table.now }
    ensures { (o : Lists) →
        result ≡ links_right (opening_in book (lend_data element_data.now o)) (record { used = used; words = table.now }) }
{
    let (rows, free) = table.split_at(used);
    periods_apart(rows) && periods_right(book, element_data, rows) && are_zero(free)
}

// Is a dated value right by itself: a point of the book, a day, and a value from low to high. Constant time.
#[tactic(auto, unfolding(rules::specs::WellFormed::value_right, rules::specs::Basics::within))]
fn value_right(book: Book, size: u64, low: u64, high: u64, word: u64) -> bool
    requires { 0 < size }
    ensures { result ≡ value_right size low high (opening_in book no_lists) word }
{
    value_point_of(size, word) < book.points
        && value_first_of(size, word) < END_OF_DAYS
        && (low..=high).contains(&value_of(size, word))
}

// Is each dated value of a later point and day than the one before. Linear in the rows.
fn values_apart(size: u64, rows: &[u64]) -> bool
    requires { 0 < size }
    ensures { result ≡ chained (earlier size) rows.now }
{
    rows.is_sorted_by(|row, next| row / size < next / size)
}

// Is each dated value right by itself. Linear in the rows.
fn each_value_right(book: Book, size: u64, low: u64, high: u64, rows: &[u64]) -> bool
    requires { 0 < size }
    ensures { result ≡ list_all (value_right size low high (opening_in book no_lists)) rows.now }
{
    rows.iter()
        .all(|row| value_right(book, size, low, high, *row))
}

// Question 5 of a table of dated values. Linear in the places. The highest holder is the book's, so the range comes as numbers.
#[tactic(auto, using(crate::proofs::Right::all_answer), unfolding(rules::specs::WellFormed::table_right, rules::specs::World::rows_of))]
pub fn values_right(book: Book, size: u64, low: u64, high: u64, table: &[u64], used: usize) -> bool
    requires size_nonzero { 0 < size }
    requires used_in_bounds { used ≤ length table.now }
    ensures { result ≡ table_right (earlier size) (value_right size low high (opening_in book no_lists))
        (record { used = used; words = table.now }) }
{
    let (rows, free) = table.split_at(used);
    values_apart(size, rows) && each_value_right(book, size, low, high, rows) && are_zero(free)
}

// Question 5 of the table of holders. Linear in the places.
#[tactic(auto, using(crate::proofs::Right::holders_any), unfolding(rules::specs::WellFormed::holders_right))]
pub fn holders_right(book: Book, table: &[u64], used: usize) -> bool
    requires { used ≤ length table.now }
    ensures { (o : Lists) → result ≡ holders_right (opening_in book o) (record { used = used; words = table.now }) }
{
    values_right(book, HOLDER_SIZE, 0, book.suppliers, table, used)
}

// Question 5 of the table of states. Linear in the places.
#[tactic(auto, using(crate::proofs::Right::states_any), unfolding(rules::specs::WellFormed::states_right))]
pub fn states_right(book: Book, table: &[u64], used: usize) -> bool
    requires { used ≤ length table.now }
    ensures { (o : Lists) → result ≡ states_right (opening_in book o) (record { used = used; words = table.now }) }
{
    values_right(book, STATE_SIZE, NEW, CLOSED, table, used)
}
