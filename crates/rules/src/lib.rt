// The types that the entry points speak, in document 01's words: the book and what is lent with it, a message as it comes, a message
// understood, a record, and the refusals with their numbers. Every definition of document 01 stands in specs/.
#![tactic(auto)]

ghost use Rattle.std.specs.Prelude.{◌≡◌};
ghost use Rattle.rules.specs.Answers.{refusal_number, number_of};
ghost use Rattle.rules.specs.Lent.{lists_of, open_lists};

// ---- limits and sizes

pub const MOST_POINTS: u64 = 256;

pub const MOST_SUPPLIERS: u64 = 16;

pub const MOST_ELEMENTS: u64 = 64;

// The first day after the last.
pub const END_OF_DAYS: u64 = 36525;

// Of the link, holder and state tables each.
pub const PLACES: usize = 1024;

// A supplier and an element each.
pub const MOST_LINES: usize = 1024;

// Bytes an element.
pub const ELEMENT_SIZE: usize = 3;

// Prices an element.
pub const PRICE_PLACES: usize = 24;

// Readings a point and day.
pub const HOUR_PLACES: usize = 24;

// Numbers a line: quantity, kroner, billionths.
pub const LINE_SIZE: usize = 3;

// Numbers a record: kind, supplier, element, the three by which the line has moved, and its three after the round.
pub const RECORD_SIZE: usize = 9;

// The numbers of as many records as a book has lines.
pub const RECORD_NUMBERS: usize = MOST_LINES * RECORD_SIZE;

pub const MOST_PRICE: u64 = 9999999999;

pub const MOST_TARIFF_PRICE: u64 = 9999999;

pub const MOST_QUANTITY: u64 = 999;

pub const MOST_ENERGY: u64 = 9999999;

// What a line holds at most.
pub const MOST_LINE_QUANTITY: u64 = 10000000000000;

pub const MOST_LINE_KRONER: i64 = 1000000000000;

// The billionths of a krone.
pub const BILLION: u64 = 1000000000;

// The kinds of rounds: 1 fixing, 2 refixing, 3 any later.
pub const LAST_ROUND: u64 = 3;

pub const DAYS_AHEAD: u64 = 1095;

pub const GRID_DAYS_BACK: u64 = 90;

pub const SUPPLIER_DAYS_BACK: u64 = 21;

// ---- amounts for the ledger

// The billionths of an øre, and the øre of a krone.
pub const ORE: u64 = 10000000;

pub const ORE_OF_KRONE: i64 = 100;

// Bytes a packed number.
pub const PACKED_SIZE: usize = 8;

// Its digits, and the largest number of so many.
pub const DIGITS: u64 = 15;

pub const MOST_PACKED: u64 = 999999999999999;

// The half-bytes C and D, for zero and above and for below.
pub const SIGN_ABOVE: u64 = 12;

pub const SIGN_BELOW: u64 = 13;

// ---- elements: kinds, owners, marks

pub const SUBSCRIPTION: u64 = 1;

pub const FEE: u64 = 2;

pub const TARIFF: u64 = 3;

pub const GRID_COMPANY: u64 = 1;

pub const ENERGINET: u64 = 2;

pub const PASS_ON: u64 = 2;

pub const TAX: u64 = 4;

pub const HOURLY: u64 = 8;

// ---- states; a point without one does not exist

pub const NOT_EXISTING: u64 = 0;

pub const NEW: u64 = 1;

pub const CONNECTED: u64 = 2;

pub const DISCONNECTED: u64 = 3;

pub const CLOSED: u64 = 4;

// In a year up to this a day counts in every state (request 8).
pub const LAST_YEAR_OF_EVERY_STATE: u64 = 2018;

// ---- rows as packed words: how many values a field has room for, and the word that one of it stands for

pub const ELEMENT_ROOM: u64 = 64;

pub const DAY_ROOM: u64 = 65536;

pub const QUANTITY_ROOM: u64 = 1024;

pub const END_UNIT: u64 = QUANTITY_ROOM;

pub const FIRST_UNIT: u64 = END_UNIT * DAY_ROOM;

pub const ELEMENT_UNIT: u64 = FIRST_UNIT * DAY_ROOM;

pub const POINT_UNIT: u64 = ELEMENT_UNIT * ELEMENT_ROOM;

// One more than the largest holder or state that a row has room for.
pub const HOLDER_SIZE: u64 = 32;

pub const STATE_SIZE: u64 = 8;

// The book's own numbers; everything else is lent.
#[derive(Clone, Copy, Debug, PartialEq, Eq)]
pub struct Book {
    pub year: u64,
    pub month: u64,
    pub points: u64,
    pub suppliers: u64,
    pub elements: u64,
    // rows in use in the link, holder and state tables
    pub periods: u64,
    pub holders: u64,
    pub states: u64,
    // the kind of the next round: 1 fixing, 2 refixing, 3 any later
    pub round: u64,
    // the first day of the month and how many days it has, as the table of months has them
    pub first: u64,
    pub days: u64,
}

// A book and all that is lent with it, to be read: element data and prices, the tables, the lines and what of them was sent.
#[derive(Clone, Copy)]
pub struct Lent<'a> {
    pub book: Book,
    pub element_data: &'a [u8],
    pub prices: &'a [i64],
    pub links: &'a [u64],
    pub holders: &'a [u64],
    pub states: &'a [u64],
    pub readings: &'a [u32],
    pub blocks: &'a [u8],
    pub lines: &'a [i64],
    pub sent: &'a [i64],
}

// A book that is open, and all that is lent with it: what a message reads, and the tables and lines that it writes.
#[derive(Drop)]
pub struct OpenBook<'a> {
    pub book: Book,
    pub element_data: &'a [u8],
    pub prices: &'a [i64],
    pub links: &'a mut [u64],
    pub holders: &'a mut [u64],
    pub states: &'a mut [u64],
    pub readings: &'a mut [u32],
    pub blocks: &'a mut [u8],
    pub lines: &'a mut [i64],
    pub sent: &'a mut [i64],
}

impl OpenBook<'_> {
    // The same, to be read.
    pub fn lent(&self) -> Lent<'_>
        ensures book { result.book ≡ self.now.book }
        ensures lists { lists_of result ≡ open_lists self.now }
    {
        Lent {
            book: self.book,
            element_data: self.element_data,
            prices: self.prices,
            links: self.links,
            holders: self.holders,
            states: self.states,
            readings: self.readings,
            blocks: self.blocks,
            lines: self.lines,
            sent: self.sent,
        }
    }
}

// A message as it came.
#[derive(Clone, Copy, Debug, PartialEq, Eq)]
pub struct Fields {
    pub kind: u64,
    pub role: u64,
    pub sender: u64,
    pub received: u64,
    pub point: u64,
    pub element: u64,
    pub day: u64,
    pub hour: u64,
    pub value: u64,
}

// Roles 1, 2 and 3; a supplier has its number.
#[derive(Clone, Copy, Debug, PartialEq, Eq)]
pub enum Sender {
    GridCompany,
    Energinet,
    Supplier(u64),
}

// The eight bodies, kinds 1 to 8, each with its own data.
#[derive(Clone, Copy, Debug, PartialEq, Eq)]
pub enum Body {
    Link {
        point: u64,
        element: u64,
        day: u64,
        quantity: u64,
    },
    Stop {
        point: u64,
        element: u64,
        day: u64,
    },
    Quantity {
        point: u64,
        element: u64,
        day: u64,
        quantity: u64,
    },
    Holder {
        point: u64,
        day: u64,
        holder: u64,
    },
    State {
        point: u64,
        day: u64,
        state: u64,
    },
    Reading {
        point: u64,
        day: u64,
        hour: u64,
        energy: u64,
    },
    Block {
        point: u64,
        blocked: u64,
    },
    Round,
}

// What kinds 1 to 3 are about: a point, an element and the given day.
#[derive(Clone, Copy, Debug, PartialEq, Eq)]
pub struct Place {
    pub point: u64,
    pub element: u64,
    pub day: u64,
}

// A message whose fields are in range.
#[derive(Clone, Copy, Debug, PartialEq, Eq)]
pub struct Message {
    pub sender: Sender,
    pub received: u64,
    pub body: Body,
}

// A line as it is computed with: the quantity, and the amount in its one form.
#[derive(Clone, Copy, Debug, PartialEq, Eq)]
pub struct Line {
    pub quantity: i64,
    pub kroner: i64,
    pub billionths: u64,
}

// One record of a round: its kind, whose line it is, how far that has moved since the last round, and the line after this one.
#[derive(Clone, Copy, Debug, PartialEq, Eq)]
pub struct Record {
    pub kind: u64,
    pub supplier: u64,
    pub element: u64,
    pub moved: Line,
    pub balance: Line,
}

// The question that says no: 1 to 18 are document 01's, 24 is request 11's. What passes every question is `Ok`.
#[derive(Clone, Copy, Debug, PartialEq, Eq)]
pub enum Refusal {
    BrokenField,
    OutOfLimits,
    WrongLength,
    WrongElement,
    IllFormed,
    OutOfRange,
    UnknownPoint,
    UnknownElement,
    NotPermitted,
    OutOfTime,
    NotExisting,
    Closed,
    AlreadyLinked,
    NothingToStop,
    NoSuchQuantity,
    OutsideMonth,
    TableFull,
    ListFull,
    NotPacked,
}

impl Refusal {
    // The question's number.
    pub fn number(self) -> u64
        ensures { result ≡ refusal_number self }
    {
        match self {
            Refusal::BrokenField => 1,
            Refusal::OutOfLimits => 2,
            Refusal::WrongLength => 3,
            Refusal::WrongElement => 4,
            Refusal::IllFormed => 5,
            Refusal::OutOfRange => 6,
            Refusal::UnknownPoint => 7,
            Refusal::UnknownElement => 8,
            Refusal::NotPermitted => 9,
            Refusal::OutOfTime => 10,
            Refusal::NotExisting => 11,
            Refusal::Closed => 12,
            Refusal::AlreadyLinked => 13,
            Refusal::NothingToStop => 14,
            Refusal::NoSuchQuantity => 15,
            Refusal::OutsideMonth => 16,
            Refusal::TableFull => 17,
            Refusal::ListFull => 18,
            Refusal::NotPacked => 24,
        }
    }
}

// The number of an answer: of the question that says no, or 0.
pub fn number(answer: Result<(), Refusal>) -> u64
    ensures { result ≡ number_of answer }
{
    match answer {
        Ok(()) => 0,
        Err(refusal) => refusal.number(),
    }
}
