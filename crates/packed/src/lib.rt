// Packed decimal, the form that the grid company's ledger takes: eight bytes, fifteen digits, highest first, then a half-byte for the sign.
// A number is written to lent bytes, and lent bytes, whatever they are, are read.
#![tactic(auto)]

ghost use Rattle.std.specs.Prelude.{◌≡◌, true, ◌*◌, ◌≤◌, ◌<◌, length};
ghost use Rattle.rules.specs.Packed.{packed_size, digit_count, digit_at, sign_of, packed_half, packed_byte, packed_bytes};
ghost use Rattle.rules.specs.Packed.{half_in, digits_in, digits_right, is_packed, sign_right, packed_amount, read_packed};

use rules::{DIGITS, PACKED_SIZE, SIGN_ABOVE, SIGN_BELOW};

// ---- writing

// The digit that stands `place` places before the last. Linear in the place.
fn digit_at(number: u64, place: u64) -> u64
    ensures { result ≡ digit_at number place }
{
    let mut rest = number;
    for _ in 0..place {
        rest /= 10;
    }
    rest % 10
}

// The half-byte for the sign: D below zero, else C.
pub fn sign_of(amount: i64) -> u64
    ensures sign { result ≡ sign_of amount }
    ensures half { result ≤ 15 }
{
    if amount < 0 { SIGN_BELOW } else { SIGN_ABOVE }
}

// Half-byte `place`, counted from 0: a digit, or the sign behind all digits.
#[tactic(auto, unfolding(rules::specs::Packed::packed_half))]
fn half_of(size: u64, sign: u64, place: u64) -> u64
    ensures { result ≡ packed_half size sign place }
{
    if place < DIGITS {
        digit_at(size, DIGITS - 1 - place)
    } else {
        sign
    }
}

// Byte `place`, counted from 0.
#[tactic(auto, unfolding(rules::specs::Packed::packed_byte))]
fn byte_of(size: u64, sign: u64, place: u64) -> u8
    requires { (sign ≤ 15) × (place < packed_size) }
    ensures { result ≡ packed_byte size sign place }
{
    let upper = half_of(size, sign, 2 * place);
    let lower = half_of(size, sign, 2 * place + 1);
    (upper * 16 + lower) as u8
}

// A number and the half-byte for its sign, in eight lent bytes.
pub fn put_packed(bytes: &mut [u8], size: u64, sign: u64)
    requires { (length bytes.old ≡ packed_size) × (sign ≤ 15) }
    ensures { bytes.new ≡ packed_bytes size sign }
{
    for (place, byte) in bytes.iter_mut().enumerate() {
        *byte = byte_of(size, sign, place as u64);
    }
}

// ---- reading

// Half-byte `place`, counted from 0: an even one is the upper half of a byte.
#[tactic(auto, unfolding(rules::specs::Packed::half_in))]
fn half_in(bytes: &[u8], place: u64) -> u64
    requires { place < 2 * length bytes.now }
    ensures { result ≡ half_in bytes.now place }
{
    let byte = u64::from(bytes[(place / 2) as usize]);
    if place % 2 == 0 { byte / 16 } else { byte % 16 }
}

// Whether no digit is above 9.
fn digits_right(bytes: &[u8]) -> bool
    requires { length bytes.now ≡ packed_size }
    ensures { result ≡ digits_right bytes.now }
{
    (0..DIGITS).all(|place| half_in(bytes, place) <= 9)
}

// The number that the digits are.
fn digits_in(bytes: &[u8]) -> u64
    requires { (length bytes.now ≡ packed_size) × (digits_right bytes.now ≡ true) }
    ensures { result ≡ digits_in bytes.now digit_count }
{
    let mut number = 0;
    for place in 0..DIGITS {
        number = number * 10 + half_in(bytes, place);
    }
    number
}

// Whether the sign is one that there is, and not that of minus zero.
#[tactic(auto, unfolding(rules::specs::Packed::sign_right))]
fn sign_right(bytes: &[u8]) -> bool
    requires { (length bytes.now ≡ packed_size) × (digits_right bytes.now ≡ true) }
    ensures { result ≡ sign_right bytes.now }
{
    match half_in(bytes, DIGITS) {
        SIGN_BELOW => digits_in(bytes) != 0,
        sign => sign == SIGN_ABOVE,
    }
}

// Whether lent bytes, of any length and whatever they are, are a packed number. Minus zero is none.
#[tactic(auto, unfolding(rules::specs::Packed::is_packed))]
pub fn is_packed(bytes: &[u8]) -> bool
    ensures { result ≡ is_packed bytes.now }
{
    bytes.len() == PACKED_SIZE && digits_right(bytes) && sign_right(bytes)
}

// The amount that a packed number is.
#[tactic(auto, unfolding(rules::specs::Packed::packed_amount))]
pub fn packed_amount(bytes: &[u8]) -> i64
    requires { is_packed bytes.now ≡ true }
    ensures { result ≡ packed_amount bytes.now }
{
    let size = digits_in(bytes) as i64;
    if half_in(bytes, DIGITS) == SIGN_BELOW {
        -size
    } else {
        size
    }
}

// The amount that lent bytes are, of any length and whatever they are, or none where they are no packed number.
#[tactic(auto, unfolding(rules::specs::Packed::read_packed, rules::specs::Basics::when))]
pub fn read_packed(bytes: &[u8]) -> Option<i64>
    ensures { result ≡ read_packed bytes.now }
{
    is_packed(bytes).then(|| packed_amount(bytes))
}
