// A line that is made: each `add` puts something after what stands there. What goes past the line's end is left out.
ghost use Rattle.std.specs.Prelude.{◌≡◌, ◌≤◌, [], ◌∷◌, ◌++◌, length, take, decimal};
ghost use Rattle.words.specs.Line.{Made, add};

use itoa::Buffer;
use std::marker::Model;

// A line in a room that is lent, of any length. Of its bytes those before `end` are made. No std `Cursor`: contracts
// here and in office promise a `Made`, which this shows and a Cursor does not.
#[derive(Drop)]
pub struct Line<'a> {
    bytes: &'a mut [u8],
    end: usize,
}

// Contracts see the room's length and the bytes that are made.
impl<'a> Model for Line<'a> {
    ghost Value = { Made };

    ghost view = { λ l. record { room = length l.bytes.now; bytes = take l.end l.bytes.now } };

    ghost invariant = { λ l. l.end ≤ length l.bytes.now };
}

impl<'a> Line<'a> {
    pub fn new(bytes: &'a mut [u8]) -> Self
        ensures { result ≡ record { room = length bytes.old; bytes = [] } }
    {
        Self::up_to(bytes, 0)
    }

    // The line that stands in some bytes up to a place. A place past their end counts as their end.
    pub fn up_to(bytes: &'a mut [u8], at: usize) -> Self
        ensures { result ≡ record { room = length bytes.old; bytes = take at bytes.old } }
    {
        let end = at.min(bytes.len());
        Line { bytes, end }
    }

    pub fn add_byte(&mut self, x: u8)
        ensures { self.new ≡ add self.old (x ∷ []) }
    {
        if self.end < self.bytes.len() {
            self.bytes[self.end] = x;
            self.end += 1;
        }
    }

    pub fn add_text(&mut self, text: &[u8])
        ensures { self.new ≡ add self.old text.now }
    {
        // What fits is copied at once: byte by byte the line's end would be read and written for each.
        let n = text.len().min(self.bytes.len() - self.end);
        self.bytes[self.end..self.end + n].copy_from_slice(&text[..n]);
        self.end += n;
    }

    // A number, and the byte after it.
    pub fn add_number(&mut self, n: u64, after: u8)
        ensures { self.new ≡ add self.old (decimal n ++ after ∷ []) }
    {
        let mut digits = Buffer::new();
        self.add_text(digits.format(n).as_bytes());
        self.add_byte(after);
    }

    pub fn as_bytes(&self) -> &[u8]
        ensures line { result.now ≡ self.now.bytes }
        ensures within { length result.now ≤ self.now.room }
    {
        &self.bytes[..self.end]
    }

    // The bytes that are made, lent on to be changed.
    pub fn into_bytes(self) -> &'a mut [u8]
        ensures line { result.now ≡ self.entry.bytes }
        ensures within { length result.now ≤ self.entry.room }
    {
        let Line { bytes, end } = self;
        &mut bytes[..end]
    }
}
