// The fields of a file, document 01, "File and program": taken off bytes, whatever they are, and an element's value put into the tables of
// the book.
ghost use Rattle.std.specs.Prelude.{◌≡◌, ◌+◌, ◌≤◌, ◌<◌, false, length, take, drop, MatchOption};
ghost use Rattle.file.specs.Bytes.{word_bytes, word_room, bytes_number, number_in};
ghost use Rattle.file.specs.Field.{month_size, message_size, tag_number, tag_numbered, tag_allowed, element_length, length_due, cut_off};
ghost use Rattle.file.specs.Field.{head_size, length_of, right_field, RightTag};
ghost use Rattle.file.specs.Field.{month_in, message_fields, field_named, RightField, field_in, field_size};
ghost use Rattle.file.specs.Element.{price_at, prices_in, element_bytes, element_prices, ElementRoom};
ghost use Rattle.rules.specs.Sizes.{price_places};

use rules::{ELEMENT_SIZE, Fields, HOURLY, PRICE_PLACES};

// ---- lengths are of values, sizes of whole fields

// Tag and length.
pub const HEADER_SIZE: usize = 3;

const MONTH_LENGTH: usize = 6;

const MONTH_SIZE: usize = HEADER_SIZE + MONTH_LENGTH;

// Kind, owner and marks, and 24 prices or one.
const HOURLY_LENGTH: usize = 195;

const ONE_PRICE_LENGTH: usize = 11;

const PRICE_BYTES: usize = 8;

const MESSAGE_LENGTH: usize = 19;

const MESSAGE_SIZE: usize = HEADER_SIZE + MESSAGE_LENGTH;

// A header and an element's kind, owner and marks: no field is shorter.
const HEAD_SIZE: usize = HEADER_SIZE + ELEMENT_SIZE;

// ---- numbers, high byte first

// The values of a byte.
const BYTE_ROOM: u64 = 256;

// The number of the bytes; 64 bits have room for eight.
#[tactic(auto, unfolding(crate::specs::Bytes::bytes_number, crate::specs::Bytes::followed))]
fn number_of(bytes: &[u8]) -> u64
    requires { length bytes.now ≤ word_bytes }
    ensures { result ≡ bytes_number bytes.now }
{
    let mut value = 0;
    for byte in bytes {
        value = value * BYTE_ROOM + u64::from(*byte);
    }
    value
}

// The number in the n bytes from a place on.
#[tactic(auto, unfolding(crate::specs::Bytes::number_in))]
pub fn number_at(s: &[u8], at: usize, n: usize) -> u64
    requires { (n ≤ word_bytes) × (at + n ≤ length s.now) }
    ensures { result ≡ number_in s.now at n }
{
    number_of(&s[at..at + n])
}

// ---- fields

// What may come next: the month, then elements and messages, then messages only.
#[derive(Clone, Copy)]
pub enum Phase {
    Start,
    Elements,
    Messages,
}

// What stands at a place of the input. Callers tell all six apart in one match, which a Result of an Option of a field would nest.
#[derive(Clone, Copy)]
pub enum Found {
    // tag 1
    Month {
        year: u64,
        month: u64,
        points: u64,
        suppliers: u64,
    },
    // tag 2: its value has `length` bytes
    Element {
        length: usize,
    },
    // tag 3
    Message {
        fields: Fields,
    },
    // the end of the input
    End,
    // the bytes in hand end within a field, and the input does not end with them
    More,
    // question 1
    Broken,
}

// What a field holds, by its tag.
#[derive(Clone, Copy, PartialEq, Eq)]
enum Tag {
    Month,
    Element,
    Message,
}

impl Tag {
    fn numbered(number: u64) -> Option<Tag>
        ensures { result ≡ tag_numbered number }
    {
        match number {
            1 => Some(Tag::Month),
            2 => Some(Tag::Element),
            3 => Some(Tag::Message),
            _ => None,
        }
    }

    #[tactic(auto, unfolding(crate::specs::Field::tag_allowed))]
    fn is_allowed(self, phase: Phase) -> bool
        ensures { result ≡ tag_allowed phase (tag_number self) }
    {
        match phase {
            Phase::Start => self == Tag::Month,
            Phase::Elements => self != Tag::Month,
            Phase::Messages => self == Tag::Message,
        }
    }

    // The length that a field of this tag has.
    #[tactic(auto, unfolding(crate::specs::Field::length_due))]
    fn length_due(self, marks: u64) -> usize
        ensures { result ≡ length_due (tag_number self) marks }
    {
        match self {
            Tag::Month => MONTH_LENGTH,
            Tag::Element => element_length(marks),
            Tag::Message => MESSAGE_LENGTH,
        }
    }
}

// How long the value of an element is, by its marks, a byte of the file.
#[tactic(auto, unfolding(crate::specs::Field::element_length))]
fn element_length(marks: u64) -> usize
    ensures { result ≡ element_length marks }
{
    if marks / HOURLY % 2 == 1 {
        HOURLY_LENGTH
    } else {
        ONE_PRICE_LENGTH
    }
}

// The bytes end within a field, or before one.
#[tactic(auto, unfolding(crate::specs::Field::cut_off))]
fn cut_off(have: usize, ended: bool) -> Found
    ensures { result ≡ cut_off have ended }
{
    if !ended {
        Found::More
    } else if have == 0 {
        Found::End
    } else {
        Found::Broken
    }
}

// The month in a field at the front.
#[tactic(auto, unfolding(crate::specs::Field::month_in))]
fn month_in(bytes: &[u8]) -> Found
    requires { month_size ≤ length bytes.now }
    ensures { result ≡ month_in bytes.now }
{
    Found::Month {
        year: number_at(bytes, 3, 2),
        month: number_at(bytes, 5, 1),
        points: number_at(bytes, 6, 2),
        suppliers: number_at(bytes, 8, 1),
    }
}

// The message in a field at the front.
#[tactic(auto, unfolding(crate::specs::Field::message_fields))]
fn message_fields(bytes: &[u8]) -> Fields
    requires { message_size ≤ length bytes.now }
    ensures { result ≡ message_fields bytes.now }
{
    Fields {
        kind: number_at(bytes, 3, 1),
        role: number_at(bytes, 4, 1),
        sender: number_at(bytes, 5, 1),
        received: number_at(bytes, 6, 4),
        point: number_at(bytes, 10, 2),
        element: number_at(bytes, 12, 1),
        day: number_at(bytes, 13, 4),
        hour: number_at(bytes, 17, 1),
        value: number_at(bytes, 18, 4),
    }
}

// A field that is whole and right.
#[tactic(auto, unfolding(crate::specs::Field::field_named, crate::specs::Field::length_due))]
fn field_named(bytes: &[u8], tag: Tag, length: usize) -> Found
    requires { RightField bytes.now (tag_number tag) length }
    ensures { result ≡ field_named bytes.now }
{
    match tag {
        Tag::Month => month_in(bytes),
        Tag::Element => Found::Element { length },
        Tag::Message => Found::Message {
            fields: message_fields(bytes),
        },
    }
}

// The tag of the field at the front, where it may come next and the length is the one that is due.
#[tactic(auto, using(crate::proofs::FieldLaws::unknown_tag), unfolding(crate::specs::Field::right_field, crate::specs::Field::header_right, crate::specs::Field::marks_in, crate::specs::Field::tag_of))]
fn right_tag(bytes: &[u8], phase: Phase, len: usize) -> Option<Tag>
    requires { (head_size ≤ length bytes.now) × (len ≡ length_of bytes.now) }
    ensures { MatchOption result (right_field phase bytes.now ≡ false) (λ tag. RightTag phase bytes.now (tag_number tag)) }
{
    let marks = number_at(bytes, 5, 1);
    match Tag::numbered(number_at(bytes, 0, 1)) {
        Some(tag) if tag.is_allowed(phase) && len == tag.length_due(marks) => Some(tag),
        _ => None,
    }
}

// The field at the front.
#[tactic(auto, unfolding(crate::specs::Field::field_in, crate::specs::Field::whole_field, crate::specs::Field::length_of))]
fn front_field(bytes: &[u8], phase: Phase, ended: bool) -> Found
    ensures { result ≡ field_in bytes.now phase ended }
{
    let have = bytes.len();
    if have < HEAD_SIZE {
        return cut_off(have, ended);
    }
    let length = number_at(bytes, 1, 2) as usize;
    match right_tag(bytes, phase, length) {
        Some(tag) if length <= have - HEADER_SIZE => field_named(bytes, tag, length),
        Some(_) => cut_off(have, ended),
        None => Found::Broken,
    }
}

// The field at a place. Where the bytes do not reach to its end, `ended` says whether the input ends with them.
pub fn field_at(s: &[u8], at: usize, phase: Phase, ended: bool) -> Found
    requires { at ≤ length s.now }
    ensures { result ≡ field_in (drop at s.now) phase ended }
{
    front_field(&s[at..], phase, ended)
}

impl Found {
    // How many bytes the field has: none where there is no whole one.
    #[tactic(auto, unfolding(crate::specs::Field::field_size))]
    fn size(self) -> usize
        requires { field_size self < word_room }
        ensures { result ≡ field_size self }
    {
        match self {
            Found::Month { .. } => MONTH_SIZE,
            Found::Element { length } => HEADER_SIZE + length,
            Found::Message { .. } => MESSAGE_SIZE,
            Found::End | Found::More | Found::Broken => 0,
        }
    }
}

// The place behind a field that was found at a place.
pub fn place_behind(at: usize, found: Found) -> usize
    requires { at + field_size found < word_room }
    ensures { result ≡ at + field_size found }
{
    at + found.size()
}

// ---- an element's value

// Price k of a value, or 0 where it has fewer.
#[tactic(auto, unfolding(crate::specs::Element::price_at, crate::specs::Bytes::signed64, crate::specs::Bytes::number_in, crate::specs::Bytes::twos_complement))]
fn price_at(value: &[u8], k: usize) -> i64
    requires { k < price_places }
    ensures { result ≡ price_at value.now k }
{
    if ONE_PRICE_LENGTH + PRICE_BYTES * k <= value.len() {
        number_at(value, ELEMENT_SIZE + PRICE_BYTES * k, PRICE_BYTES).cast_signed()
    } else {
        0
    }
}

// The 24 prices of a value.
#[tactic(auto, unfolding(crate::specs::Element::prices_in, rules::specs::Basics::list_to))]
fn put_prices(prices: &mut [i64], value: &[u8])
    requires { length prices.old ≡ price_places }
    ensures { prices.new ≡ prices_in value.now }
{
    for (k, price) in prices.iter_mut().enumerate() {
        *price = price_at(value, k);
    }
}

// Puts the value of an element field, `size` bytes at a place, into the tables as element e: three bytes and 24 prices.
#[tactic(auto, unfolding(crate::specs::Element::element_bytes, crate::specs::Element::element_prices, crate::specs::Bytes::placed))]
pub fn read_element(
    s: &[u8],
    at: usize,
    size: usize,
    element_data: &mut [u8],
    prices: &mut [i64],
    e: usize,
)
    requires { ElementRoom s.now at size element_data.old prices.old e }
    ensures described { element_data.new ≡ element_bytes element_data.old e (take size (drop at s.now)) }
    ensures priced { prices.new ≡ element_prices prices.old e (take size (drop at s.now)) }
{
    let value = &s[at..at + size];
    let head = e * ELEMENT_SIZE;
    element_data[head..head + ELEMENT_SIZE].copy_from_slice(&value[..ELEMENT_SIZE]);
    let first = e * PRICE_PLACES;
    put_prices(&mut prices[first..first + PRICE_PLACES], value);
}
