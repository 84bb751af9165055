// A reader: it holds the bytes and the place of the next field. Each function takes it apart and calls the one on slice and cursor.
ghost use Rattle.std.specs.Prelude.{◌≡◌, drop, Some, None};
ghost use Rattle.fields.specs.Fields.{le};
ghost use Rattle.fields.specs.Cursors.{taken, run_at};
ghost use Rattle.fields.specs.Holders.{reader_of, read_place, read_on};

use crate::{Cursor, Number, rest, run, take_number, take_run};

// Reads fields front to back, never past the end: where a field's bytes are not all there, it takes nothing and stays.
#[derive(Clone, Copy)]
pub struct Reader<'a> {
    pub bytes: &'a [u8],
    pub at: usize,
}

impl<'a> Reader<'a> {
    // Starts at the front.
    pub fn new(bytes: &'a [u8]) -> Reader<'a>
        ensures { result ≡ reader_of bytes.entry }
    {
        Reader { bytes, at: 0 }
    }

    // The next number, or nothing.
    pub fn number<N: Number>(&mut self) -> Option<N>
        ensures value { result ≡ taken N.SIZE (λ _. Some (N.of (le N.SIZE self.old.bytes.now self.old.at))) None self.old.bytes.now (read_place self.old) }
        ensures self_after { self.new ≡ read_on N.SIZE self.old }
    {
        let (x, next) = take_number(self.bytes, Cursor { at: self.at })?;
        self.at = next.at;
        Some(x)
    }

    // The next n bytes; an empty part, where they are not all there.
    pub fn take(&mut self, n: usize) -> &'a [u8]
        ensures result_value { result.now ≡ run_at n self.old.bytes.now (read_place self.old) }
        ensures self_after { self.new ≡ read_on n self.old }
    {
        let c = Cursor { at: self.at };
        self.at = take_run(self.bytes, c, n).unwrap_or(c).at;
        run(self.bytes, c, n)
    }

    // All that is left.
    pub fn rest(self) -> &'a [u8]
        ensures { result.now ≡ drop self.entry.at self.entry.bytes.now }
    {
        rest(self.bytes, Cursor { at: self.at })
    }
}
