// The file reader of document 01, "File and program": the bytes it was lent and how far it has come, and few thin functions over them.
// `fields::field_at` decides what stands at a place, and `fields::place_behind` where the reader goes on.
ghost use Rattle.std.specs.Prelude.{◌≡◌, ◌+◌, ◌≤◌, length, drop};
ghost use Rattle.file.specs.Field.{field_in, field_size};
ghost use Rattle.file.specs.Reader.{located_at};

use crate::fields::{Found, Phase, field_at, place_behind};

// "The reader carries the bytes it was lent and how far it has come."
#[derive(Clone, Copy)]
pub struct Reader<'a> {
    pub bytes: &'a [u8],
    pub at: usize,
}

impl<'a> Reader<'a> {
    // A reader of the bytes, at a place.
    pub fn new(bytes: &'a [u8], at: usize) -> Reader<'a>
        ensures { (result.bytes ≡ bytes.entry) × (result.at ≡ at) }
    {
        Reader { bytes, at }
    }

    // The field at the reader's place.
    pub fn field(self, phase: Phase, ended: bool) -> Found
        requires { self.at ≤ length self.bytes.now }
        ensures { result ≡ field_in (drop self.entry.at self.entry.bytes.now) phase ended }
    {
        field_at(self.bytes, self.at, phase, ended)
    }

    // The reader behind a field that it has found.
    pub fn behind(self, found: Found) -> Reader<'a>
        requires { self.at + field_size found ≤ length self.bytes.now }
        ensures { (result.bytes ≡ self.entry.bytes) × (result.at ≡ self.entry.at + field_size found) }
    {
        Reader {
            at: place_behind(self.at, found),
            ..self
        }
    }

    // How far the reader has come.
    pub fn place(self) -> usize
        ensures { result ≡ self.entry.at }
    {
        self.at
    }
}

// What a reader has found, and how far it has come behind it.
#[derive(Clone, Copy)]
pub struct Located {
    pub found: Found,
    pub place: usize,
}

// Reads the field at a place of the bytes, through a reader: for callers whose parameters are plain.
pub fn read(bytes: &[u8], at: usize, phase: Phase, ended: bool) -> Located
    requires { at ≤ length bytes.now }
    ensures { result ≡ located_at bytes.now at phase ended }
{
    let reader = Reader::new(bytes, at);
    let found = reader.field(phase, ended);
    Located {
        found,
        place: reader.behind(found).place(),
    }
}
