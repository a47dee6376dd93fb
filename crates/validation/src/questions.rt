// Questions 7 to 16 of a message: the first that says no. One match over the bodies says which of them each is asked, in their order.
ghost use Rattle.std.specs.Prelude.{◌≡◌, ◌<◌, ltb, IfOk};
ghost use Rattle.rules.specs.Sizes.{end_of_days};
ghost use Rattle.rules.specs.declared.Body.{Body};
ghost use Rattle.rules.specs.World.{owner_of, is_tariff, marked, tax, linked_on};
ghost use Rattle.rules.specs.Lent.{lent_opening, lent_tables};
ghost use Rattle.rules.specs.Questions.{in_time, may_link, question13, question14, question15, question16, tariff_once};
ghost use Rattle.rules.specs.Effects.{ask};
ghost use Rattle.rules.specs.Answers.{refusal_number, number_of};
ghost use Rattle.validation.specs.Decided.{decided, asked9to12, spans_day, Placed, Readable, InRange};

use facts::{holder_on, month_days, month_first, state_on};
use pricing::{is_marked, kind_of, marks_of, owner_of};
pub use rules::number;
use rules::{
    Body, Book, CLOSED, DAYS_AHEAD, ENERGINET, GRID_COMPANY, GRID_DAYS_BACK, Lent, Message,
    NOT_EXISTING, Place, Refusal, SUPPLIER_DAYS_BACK, Sender, TARIFF, TAX,
};
use tables::{end_of, first_of, pair_part, quantity_on};

// One question: it passes, or its refusal is the answer.
#[tactic(auto, unfolding(rules::specs::Effects::ask))]
pub fn ask(passed: bool, refusal: Refusal) -> Result<(), Refusal>
    ensures { number_of result ≡ ask passed (refusal_number refusal) 0 }
{
    if passed { Ok(()) } else { Err(refusal) }
}

// What the questions look at of an element. The owner is the number that `pricing::owner_of` promises.
#[derive(Clone, Copy)]
struct Element {
    owner: u64,
    is_tariff: bool,
    is_tax: bool,
}

fn element_at(lent: &Lent, element: u64) -> Element
    requires readable { Readable lent.now }
    requires element { element < lent.now.book.elements }
    ensures owner { result.owner ≡ owner_of (lent_opening lent.now) element }
    ensures tariff { result.is_tariff ≡ is_tariff (lent_opening lent.now) element }
    ensures tax { result.is_tax ≡ marked (lent_opening lent.now) tax element }
{
    let at = element as usize;
    Element {
        owner: owner_of(lent.element_data, at),
        is_tariff: kind_of(lent.element_data, at) == TARIFF,
        is_tax: is_marked(marks_of(lent.element_data, at), TAX),
    }
}

// ---- questions 7 and 8: the point and the element

// Question 7.
pub fn ask_point(book: Book, point: u64) -> Result<(), Refusal>
    ensures { number_of result ≡ ask (ltb point book.points) 7 0 }
{
    ask(point < book.points, Refusal::UnknownPoint)
}

// Question 8 of an element number. One function for both would be `ask`.
pub fn ask_element(book: Book, element: u64) -> Result<(), Refusal>
    ensures { number_of result ≡ ask (ltb element book.elements) 8 0 }
{
    ask(element < book.elements, Refusal::UnknownElement)
}

// Questions 7 and 8 of a point and an element: they are in the book.
#[tactic(auto, unfolding(rules::specs::Effects::ask))]
pub fn ask_pair(book: Book, point: u64, element: u64) -> Result<(), Refusal>
    ensures { number_of result ≡ ask (ltb point book.points) 7 (ask (ltb element book.elements) 8 0) }
{
    ask_point(book, point)?;
    ask_element(book, element)
}

// Questions 7 and 8 of kinds 1 to 3: the place that they are about, where its point and its element are in the book.
#[tactic(auto, unfolding(rules::specs::Effects::ask))]
fn place_in(book: Book, point: u64, element: u64, day: u64) -> Result<Place, Refusal>
    requires { day < end_of_days }
    ensures number { number_of result ≡ ask (ltb point book.points) 7 (ask (ltb element book.elements) 8 0) }
    ensures place { IfOk result (λ l. l ≡ record { point = point; element = element; day = day }) }
    ensures placed { IfOk result (λ l. Placed book l) }
{
    ask_pair(book, point, element)?;
    Ok(Place {
        point,
        element,
        day,
    })
}

// Question 8 of a link in the book: the quantity is 1 where a tariff is linked.
#[tactic(auto, unfolding(rules::specs::Questions::tariff_once))]
fn tariff_once(lent: &Lent, place: Place, quantity: u64) -> Result<(), Refusal>
    requires readable { Readable lent.now }
    requires placed { Placed lent.now.book place }
    ensures { number_of result
        ≡ ask (tariff_once (lent_opening lent.now) (Body.Link place.point place.element place.day quantity)) 8 0 }
{
    ask(
        !element_at(lent, place.element).is_tariff || quantity == 1,
        Refusal::UnknownElement,
    )
}

// ---- questions 9 to 12: may the sender, in time, and does the point exist and is not closed

// Question 9 of kinds 1 to 3: the grid company for its own elements, and for taxes on a blocked point; Energinet for its own; a supplier
// for Energinet's tariffs on an unblocked point that it holds that day.
#[tactic(auto, unfolding(rules::specs::Questions::may_link, rules::specs::Questions::blocked))]
fn may_link(lent: &Lent, sender: Sender, place: Place) -> bool
    requires readable { Readable lent.now }
    requires placed { Placed lent.now.book place }
    ensures { result ≡ may_link (lent_opening lent.now) (lent_tables lent.now) sender place }
{
    let element = element_at(lent, place.element);
    let blocked = lent.blocks[place.point as usize] == 1;
    match sender {
        Sender::GridCompany => element.owner == GRID_COMPANY || (element.is_tax && blocked),
        Sender::Energinet => element.owner == ENERGINET,
        Sender::Supplier(supplier) => {
            element.owner == ENERGINET
                && element.is_tariff
                && !blocked
                && holder_on(lent, place.point, place.day) == supplier
        }
    }
}

// Question 10: three years ahead; 90 days back for the grid company, 21 for a supplier, no limit for Energinet.
#[tactic(auto, unfolding(rules::specs::Questions::in_time))]
pub fn in_time(sender: Sender, received: u64, day: u64) -> bool
    requires { (received < end_of_days) × (day < end_of_days) }
    ensures { result ≡ in_time sender received day }
{
    day <= received + DAYS_AHEAD
        && match sender {
            Sender::GridCompany => received <= day + GRID_DAYS_BACK,
            Sender::Energinet => true,
            Sender::Supplier(_) => received <= day + SUPPLIER_DAYS_BACK,
        }
}

// Questions 9 to 12 of kinds 1 to 3.
#[tactic(auto, unfolding(rules::specs::Effects::ask, crate::specs::Decided::asked9to12))]
fn ask_place(lent: &Lent, sender: Sender, received: u64, place: Place) -> Result<(), Refusal>
    requires readable { Readable lent.now }
    requires placed { Placed lent.now.book place }
    requires received { received < end_of_days }
    ensures { number_of result ≡ asked9to12 (lent_opening lent.now) (lent_tables lent.now) sender received place 0 }
{
    ask(may_link(lent, sender, place), Refusal::NotPermitted)?;
    ask(in_time(sender, received, place.day), Refusal::OutOfTime)?;
    let state = state_on(lent, place.point, place.day);
    ask(state != NOT_EXISTING, Refusal::NotExisting)?;
    ask(state != CLOSED, Refusal::Closed)
}

// ---- questions 13 to 16, each of one kind

// Is the element linked that day.
#[tactic(auto, unfolding(rules::specs::World::linked_on, rules::specs::World::rows_of))]
fn is_linked(lent: &Lent, place: Place) -> bool
    requires readable { Readable lent.now }
    requires placed { Placed lent.now.book place }
    ensures { result ≡ linked_on (lent_tables lent.now) place.point place.element place.day }
{
    let used = lent.book.periods as usize;
    quantity_on(&lent.links[..used], place.point, place.element, place.day) != 0
}

// Question 13: the element is not linked that day.
#[tactic(auto, unfolding(rules::specs::Questions::question13))]
fn is_free(lent: &Lent, place: Place) -> Result<(), Refusal>
    requires readable { Readable lent.now }
    requires placed { Placed lent.now.book place }
    ensures { number_of result ≡ ask (question13 (lent_tables lent.now) place.point place.element place.day) 13 0 }
{
    ask(!is_linked(lent, place), Refusal::AlreadyLinked)
}

// Question 14 of the rows of a point and element: some day before the day is linked where the first row starts before it, and some day from
// it on where the last row ends after it.
#[tactic(auto, unfolding(crate::specs::Decided::spans_day))]
fn spans_day(rows: &[u64], day: u64) -> bool
    ensures { result ≡ spans_day day rows.now }
{
    match (rows.first(), rows.last()) {
        (Some(first), Some(last)) => first_of(*first) < day && day < end_of(*last),
        _ => false,
    }
}

// Question 14: some day before the day is linked, and some day from it on.
fn can_stop(lent: &Lent, place: Place) -> Result<(), Refusal>
    requires readable { Readable lent.now }
    requires placed { Placed lent.now.book place }
    ensures { number_of result ≡ ask (question14 (lent_tables lent.now) place.point place.element place.day) 14 0 }
{
    let used = lent.book.periods as usize;
    let rows = pair_part(&lent.links[..used], place.point, place.element);
    ask(spans_day(rows, place.day), Refusal::NothingToStop)
}

// Question 15: no tariff, and linked that day.
#[tactic(auto, unfolding(rules::specs::Questions::question15))]
fn can_change(lent: &Lent, place: Place) -> Result<(), Refusal>
    requires readable { Readable lent.now }
    requires placed { Placed lent.now.book place }
    ensures { number_of result
        ≡ ask (question15 (lent_opening lent.now) (lent_tables lent.now) place.point place.element place.day) 15 0 }
{
    ask(
        !element_at(lent, place.element).is_tariff && is_linked(lent, place),
        Refusal::NoSuchQuantity,
    )
}

// Question 16: the day is in the month.
#[tactic(auto, unfolding(rules::specs::Questions::question16, rules::specs::World::month_first, rules::specs::World::month_days))]
fn in_month(lent: &Lent, day: u64) -> Result<(), Refusal>
    requires { Readable lent.now }
    ensures { number_of result ≡ ask (question16 (lent_opening lent.now) day) 16 0 }
{
    let first = month_first(lent.book);
    ask(
        first <= day && day < first + month_days(lent.book),
        Refusal::OutsideMonth,
    )
}

// ---- questions 7 to 16 of a well-formed book

// Questions 7 to 16 of a message, in order: the first that says no.
#[tactic(auto, using(crate::proofs::Bodies::decided_is, crate::proofs::Next::refuses), unfolding(crate::proofs::Next::or_next, rules::specs::Questions::is_energinet, rules::specs::Questions::is_grid_company))]
pub fn decide(lent: &Lent, message: Message) -> Result<(), Refusal>
    requires readable { Readable lent.now }
    requires in_range { InRange lent.now.book.suppliers message }
    ensures { number_of result ≡ decided (lent_opening lent.now) (lent_tables lent.now) message 0 }
{
    let Message {
        sender,
        received,
        body,
    } = message;
    match body {
        Body::Link {
            point,
            element,
            day,
            quantity,
        } => {
            let link = place_in(lent.book, point, element, day)?;
            tariff_once(lent, link, quantity)?;
            ask_place(lent, sender, received, link)?;
            is_free(lent, link)
        }
        Body::Stop {
            point,
            element,
            day,
        } => {
            let stop = place_in(lent.book, point, element, day)?;
            ask_place(lent, sender, received, stop)?;
            can_stop(lent, stop)
        }
        Body::Quantity {
            point,
            element,
            day,
            ..
        } => {
            let change = place_in(lent.book, point, element, day)?;
            ask_place(lent, sender, received, change)?;
            can_change(lent, change)
        }
        Body::Holder { point, .. } => {
            ask_point(lent.book, point)?;
            ask(sender == Sender::Energinet, Refusal::NotPermitted)
        }
        Body::State { point, .. } | Body::Block { point, .. } => {
            ask_point(lent.book, point)?;
            ask(sender == Sender::GridCompany, Refusal::NotPermitted)
        }
        Body::Reading { point, day, .. } => {
            ask_point(lent.book, point)?;
            ask(sender == Sender::GridCompany, Refusal::NotPermitted)?;
            in_month(lent, day)
        }
        Body::Round => ask(sender == Sender::Energinet, Refusal::NotPermitted),
    }
}
