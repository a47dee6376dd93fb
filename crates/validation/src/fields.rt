// Question 6: from raw fields, any numbers, to a message. Matches over the role and the kind number decide who the sender is, which fields
// apply and what the value is. Both stay numbers here: fields may be any numbers, as a file or a caller of the C interface gives them.
ghost use Rattle.std.specs.Prelude.{◌≡◌};
ghost use Rattle.rules.specs.Messages.{is_day, sender_of, no_element, fields_right, value_fits, body_named, body_of, understood};

use rules::{
    Body, CLOSED, END_OF_DAYS, Fields, HOUR_PLACES, MOST_ENERGY, MOST_QUANTITY, Message, NEW,
    Sender,
};

#[tactic(auto, unfolding(rules::specs::Messages::is_day))]
fn is_day(day: u64) -> bool
    ensures { result ≡ is_day day }
{
    day < END_OF_DAYS
}

// Roles: 1 grid company, 2 Energinet, 3 a supplier of the book.
#[tactic(auto, unfolding(rules::specs::Messages::sender_of, rules::specs::Basics::when, rules::specs::Basics::within))]
pub fn sender_of(suppliers: u64, f: Fields) -> Option<Sender>
    ensures { result ≡ sender_of suppliers f }
{
    match f.role {
        1 => (f.sender == 0).then_some(Sender::GridCompany),
        2 => (f.sender == 0).then_some(Sender::Energinet),
        3 => (1..=suppliers)
            .contains(&f.sender)
            .then_some(Sender::Supplier(f.sender)),
        _ => None,
    }
}

// Neither the element nor the hour is used.
#[tactic(auto, unfolding(rules::specs::Messages::no_element, rules::specs::Messages::no_hour))]
fn no_element(f: Fields) -> bool
    ensures { result ≡ no_element f }
{
    f.element == 0 && f.hour == 0
}

// Which fields a kind uses: the days and hours that it uses are in range, and what it does not use is 0.
#[tactic(auto, unfolding(rules::specs::Messages::fields_right, rules::specs::Messages::no_hour, rules::specs::Basics::within))]
fn fields_right(f: Fields) -> bool
    ensures { result ≡ fields_right f }
{
    match f.kind {
        // point, element and day
        1..=3 => is_day(f.day) && f.hour == 0,
        // point and day
        4 | 5 => is_day(f.day) && no_element(f),
        // point, day and hour
        6 => is_day(f.day) && f.element == 0 && f.hour < HOUR_PLACES as u64,
        // the point
        7 => f.day == 0 && no_element(f),
        // none
        8 => f.point == 0 && no_element(f) && f.day == 0,
        _ => false,
    }
}

// What a kind's value is: it is in range; kinds 2 and 8 have none.
#[tactic(auto, unfolding(rules::specs::Messages::value_fits, rules::specs::Messages::is_quantity, rules::specs::Basics::within))]
fn value_fits(suppliers: u64, kind: u64, value: u64) -> bool
    ensures { result ≡ value_fits suppliers kind value }
{
    match kind {
        // a quantity
        1 | 3 => (1..=MOST_QUANTITY).contains(&value),
        // a holder
        4 => value <= suppliers,
        // a state
        5 => (NEW..=CLOSED).contains(&value),
        // Wh
        6 => value <= MOST_ENERGY,
        // a block mark
        7 => value <= 1,
        _ => value == 0,
    }
}

// The body that a kind number names.
#[tactic(auto, unfolding(rules::specs::Messages::body_named))]
fn body_named(f: Fields) -> Body
    ensures { result ≡ body_named f }
{
    let Fields {
        kind,
        point,
        element,
        day,
        hour,
        value,
        ..
    } = f;
    match kind {
        1 => Body::Link {
            point,
            element,
            day,
            quantity: value,
        },
        2 => Body::Stop {
            point,
            element,
            day,
        },
        3 => Body::Quantity {
            point,
            element,
            day,
            quantity: value,
        },
        4 => Body::Holder {
            point,
            day,
            holder: value,
        },
        5 => Body::State {
            point,
            day,
            state: value,
        },
        6 => Body::Reading {
            point,
            day,
            hour,
            energy: value,
        },
        7 => Body::Block {
            point,
            blocked: value,
        },
        _ => Body::Round,
    }
}

// A body whose fields are in range.
#[tactic(auto, unfolding(rules::specs::Messages::body_of, rules::specs::Basics::when))]
pub fn body_of(suppliers: u64, f: Fields) -> Option<Body>
    ensures { result ≡ body_of suppliers f }
{
    (fields_right(f) && value_fits(suppliers, f.kind, f.value)).then_some(body_named(f))
}

// Question 6, of any fields: the message that they are, or none.
#[tactic(auto, unfolding(rules::specs::Messages::understood, rules::specs::Messages::both))]
pub fn understand(suppliers: u64, f: Fields) -> Option<Message>
    ensures { result ≡ understood suppliers f }
{
    if !is_day(f.received) {
        return None;
    }
    let sender = sender_of(suppliers, f)?;
    let body = body_of(suppliers, f)?;
    Some(Message {
        sender,
        received: f.received,
        body,
    })
}
