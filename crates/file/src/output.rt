// The printed lines of document 01, "File and program": their text, byte for byte.
ghost use Rattle.std.specs.Prelude.{◌+◌, ◌≤◌, [], ◌∷◌, length};
ghost use Rattle.file.specs.Decimal.{decimal};
ghost use Rattle.file.specs.Lines.{number_then, signed_then, measures_then, book_line, record_line, refused_line};
ghost use Rattle.file.specs.Lines.{number_width, signed_width, measures_width, longest_line, Written, HasRoom, Puts};

use itoa::{Buffer, Integer};
use rules::{Line, Record};

// Room for a number of 64 bits and the byte behind it.
pub const NUMBER_WIDTH: usize = 21;

// Room for the longest line, which is a record's.
pub const LONGEST_LINE: usize = 200;

// ---- a text that grows in a list

// The list that it was lent, and the place behind what was put there. Not by `Display` and `write!`: std promises what they write only
// after an `Ok`, and no clause says that a write to memory is one, while `Written` of a line holds always.
#[derive(Drop)]
pub struct Text<'a> {
    pub out: &'a mut [u8],
    pub at: usize,
}

impl Text<'_> {
    // All bytes of a text.
    pub fn bytes(&mut self, text: &[u8])
        requires { HasRoom self.old (length text.now) }
        ensures { Puts (length text.now) self.old self.new text.now }
    {
        let end = self.at + text.len();
        self.out[self.at..end].copy_from_slice(text);
        self.at = end;
    }

    fn byte(&mut self, b: u8)
        requires { HasRoom self.old 1 }
        ensures { Puts 1 self.old self.new (b ∷ []) }
    {
        self.bytes(&[b]);
    }

    // An integer in decimal, without leading zeros, and with a minus sign where it is negative.
    fn integer<I: Integer>(&mut self, n: I)
        requires { HasRoom self.old (length (I.text n)) }
        ensures { Puts (length (I.text n)) self.old self.new (I.text n) }
    {
        let mut digits = Buffer::new();
        self.bytes(digits.format(n).as_bytes());
    }

    #[tactic(auto, using(crate::proofs::TextLaws::printed))]
    pub fn number(&mut self, n: u64)
        requires { HasRoom self.old (length (decimal n)) }
        ensures { Puts (length (decimal n)) self.old self.new (decimal n) }
    {
        self.integer(n);
    }

    // A number and the byte behind it.
    pub fn number_then(&mut self, n: u64, after: u8)
        requires { HasRoom self.old number_width }
        ensures { Puts number_width self.old self.new (number_then n after) }
    {
        self.number(n);
        self.byte(after);
    }

    // A signed number and the byte behind it.
    pub fn signed_then(&mut self, z: i64, after: u8)
        requires { HasRoom self.old signed_width }
        ensures { Puts signed_width self.old self.new (signed_then z after) }
    {
        self.integer(z);
        self.byte(after);
    }

    // A quantity, kroner and billionths, and the byte behind them.
    fn measures(&mut self, line: Line, after: u8)
        requires { HasRoom self.old measures_width }
        ensures { Puts measures_width self.old self.new (measures_then line after) }
    {
        self.signed_then(line.quantity, b' ');
        self.signed_then(line.kroner, b' ');
        self.number_then(line.billionths, after);
    }
}

// ---- lines; the answer is the place behind one

// `book`: year, month, days, first day.
pub fn put_book(out: &mut [u8], at: usize, year: u64, month: u64, days: u64, first: u64) -> usize
    requires { at + longest_line ≤ length out.old }
    ensures { Written longest_line out.old out.new at result (book_line year month days first) }
{
    let mut line = Text { out, at };
    line.bytes(b"book ");
    line.number_then(year, b' ');
    line.number_then(month, b' ');
    line.number_then(days, b' ');
    line.number_then(first, b'\n');
    line.at
}

// `record`: kind, supplier, element, quantity, kroner, billionths, and the balance's quantity, kroner, billionths.
pub fn put_record(out: &mut [u8], at: usize, r: Record) -> usize
    requires { at + longest_line ≤ length out.old }
    ensures { Written longest_line out.old out.new at result (record_line r) }
{
    let mut line = Text { out, at };
    line.bytes(b"record ");
    line.number_then(r.kind, b' ');
    line.number_then(r.supplier, b' ');
    line.number_then(r.element, b' ');
    line.measures(r.moved, b' ');
    line.measures(r.balance, b'\n');
    line.at
}

// `refused`: message number, question: numbers, as the entry points for C answer them.
pub fn put_refused(out: &mut [u8], at: usize, message: u64, question: u64) -> usize
    requires { at + longest_line ≤ length out.old }
    ensures { Written longest_line out.old out.new at result (refused_line message question) }
{
    let mut line = Text { out, at };
    line.bytes(b"refused ");
    line.number_then(message, b' ');
    line.number_then(question, b'\n');
    line.at
}
