// What an accepted message writes into the tables, and question 17's part on rows: whether they fit afterwards.
ghost use Rattle.std.specs.Prelude.{◌≡◌, true, cond, ◌+◌, ◌≤◌, ◌<◌, leb, length, take, set};
ghost use Rattle.rules.specs.declared.Body.TheVariants.{Reading, Block};
ghost use Rattle.rules.specs.Rows.{pack_period, insert_row, pack_value, record_row};
ghost use Rattle.rules.specs.Sizes.{day_room, places, quantity_room};
ghost use Rattle.rules.specs.WellFormed.{rows_fit};
ghost use Rattle.rules.specs.Effects.{told};
ghost use Rattle.rules.specs.Lent.{lent_opening, lent_tables, open_world, SameLent};
ghost use Rattle.tables.specs.Order.{LinkRows, ValueRows, ClearBehind, TableRows, PairFits, DayFits, PointFits};
ghost use Rattle.tables.specs.Search.{Changed};
ghost use Rattle.facts.specs.Links.{link_ends};
ghost use Rattle.recording.specs.Recorded.{RowFits, ReadingFits, recorded_in};

use facts::reading_place;
use rules::{Body, Book, HOLDER_SIZE, Lent, OpenBook, PLACES, STATE_SIZE};
use tables::{insert, pack_period, pack_value, record_value, recorded, split, starts_on, stop};

// ---- do the rows fit afterwards

// Room for a row that replaces one, or is one more.
fn has_room(used: u64, replaces: bool) -> bool
    requires { used ≤ places }
    ensures { result ≡ leb (cond replaces used (used + 1)) places }
{
    replaces || used < PLACES as u64
}

// Messages 1 to 5: do periods, holders and states fit 1,024 each afterwards. Cost: logarithmic in the rows.
pub fn rows_fit_after(lent: &Lent, body: Body) -> bool
    requires table_rows { TableRows lent.now.book lent.now.links.now lent.now.holders.now lent.now.states.now }
    requires row_fits { RowFits (take lent.now.book.periods lent.now.links.now) body }
    ensures { result ≡ rows_fit (told (lent_opening lent.now) (lent_tables lent.now) body) }
{
    let Book {
        periods,
        holders,
        states,
        ..
    } = lent.book;
    match body {
        Body::Link { .. } => has_room(periods, false),
        Body::Quantity {
            point,
            element,
            day,
            ..
        } => has_room(
            periods,
            starts_on(&lent.links[..periods as usize], point, element, day),
        ),
        Body::Holder { point, day, .. } => has_room(
            holders,
            recorded(&lent.holders[..holders as usize], HOLDER_SIZE, point, day),
        ),
        Body::State { point, day, .. } => has_room(
            states,
            recorded(&lent.states[..states as usize], STATE_SIZE, point, day),
        ),
        _ => true,
    }
}

// ---- messages 1 to 5: a row of one table

// A new period, and how many rows there are then. Cost: logarithmic in the rows, then linear in those behind the place. Its five fields are
// `tables::pack_period`'s, which a struct would only name again.
fn write_period(
    links: &mut [u64],
    used: usize,
    point: u64,
    element: u64,
    day: u64,
    ends: u64,
    quantity: u64,
) -> usize
    requires link_rows { LinkRows links.old used × ClearBehind links.old used × (used < places) }
    requires pair_fits { PairFits point element × DayFits day × (ends < day_room) × (quantity < quantity_room) }
    ensures { Changed (insert_row (pack_period point element day ends quantity) (take used links.old)) links.new result }
{
    insert(
        links,
        used,
        pack_period(point, element, day, ends, quantity),
    );
    used + 1
}

// A new holder or state, and how many rows there are then. Cost: as for a period.
fn write_value(table: &mut [u64], used: usize, size: u64, point: u64, day: u64, value: u64) -> usize
    requires value_rows { ValueRows size table.old used × ClearBehind table.old used }
    requires point_fits { PointFits size point × DayFits day × (value < size) }
    requires table_len_bound { length (record_row size (pack_value size point day value) (take used table.old)) ≤ places }
    ensures { Changed (record_row size (pack_value size point day value) (take used table.old)) table.new result }
{
    record_value(table, used, size, pack_value(size, point, day, value))
}

// What messages 1 to 5 record, a link up to the day where it ends. Cost: as for a period.
pub fn write_rows(opened: &mut OpenBook, body: Body, ends: u64)
    requires table_rows { TableRows opened.old.book opened.old.links.now opened.old.holders.now opened.old.states.now }
    requires row_fits { RowFits (take opened.old.book.periods opened.old.links.now) body × (ends < day_room) }
    requires body_value { let w = open_world opened.old in rows_fit (told w.opening w.position.tables body) ≡ true }
    ensures same { SameLent opened.old opened.new }
    ensures recorded { let w = open_world opened.old in
        ends ≡ link_ends w.opening w.position.tables body → open_world opened.new ≡ recorded_in w body }
{
    let periods = opened.book.periods as usize;
    let holders = opened.book.holders as usize;
    let states = opened.book.states as usize;
    match body {
        Body::Link {
            point,
            element,
            day,
            quantity,
        } => {
            opened.book.periods = write_period(
                opened.links,
                periods,
                point,
                element,
                day,
                ends,
                quantity,
            ) as u64;
        }
        Body::Stop {
            point,
            element,
            day,
        } => {
            opened.book.periods = stop(opened.links, periods, point, element, day) as u64;
        }
        Body::Quantity {
            point,
            element,
            day,
            quantity,
        } => {
            opened.book.periods = split(
                opened.links,
                periods,
                point,
                element,
                day,
                quantity,
            ) as u64;
        }
        Body::Holder { point, day, holder } => {
            opened.book.holders = write_value(
                opened.holders,
                holders,
                HOLDER_SIZE,
                point,
                day,
                holder,
            ) as u64;
        }
        Body::State { point, day, state } => {
            opened.book.states = write_value(
                opened.states,
                states,
                STATE_SIZE,
                point,
                day,
                state,
            ) as u64;
        }
        _ => (),
    }
}

// ---- messages 6 and 7: one place of one table

// Message 6: the old reading of the hour is replaced. Constant time.
pub fn write_reading(opened: &mut OpenBook, point: u64, day: u64, hour: u64, energy: u64)
    requires { ReadingFits opened.old.book opened.old.readings.now point day hour energy }
    ensures same { SameLent opened.old opened.new }
    ensures recorded { open_world opened.new ≡ recorded_in (open_world opened.old) (Reading point day hour energy) }
{
    let at = reading_place(opened.book, point, day, hour);
    opened.readings[at] = energy as u32;
}

// Message 7. Constant time.
pub fn write_block(opened: &mut OpenBook, point: u64, blocked: u64)
    requires { (point < length opened.old.blocks.now) × (blocked ≤ 1) }
    ensures same { SameLent opened.old opened.new }
    ensures recorded { open_world opened.new ≡ recorded_in (open_world opened.old) (Block point blocked) }
{
    opened.blocks[point as usize] = blocked as u8;
}
