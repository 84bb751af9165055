// A writer: it holds the bytes that it fills and the place of the next field. Each function takes it apart and calls the one on slice and
// cursor.
ghost use Rattle.std.specs.Prelude.{◌≡◌};
ghost use Rattle.fields.specs.Fields.{le_bytes};
ghost use Rattle.fields.specs.Cursors.{at_front, run_at};
ghost use Rattle.fields.specs.Holders.{writer_of, wrote};

use crate::{Cursor, Number, put_number, put_run, written};

// Writes fields front to back, never past the end: a field that doesn't fit is left out, and the place stays.
#[derive(Drop)]
pub struct Writer<'a> {
    pub buffer: &'a mut [u8],
    pub at: usize,
}

impl<'a> Writer<'a> {
    // Starts at the front.
    pub fn new(buffer: &'a mut [u8]) -> Writer<'a>
        ensures { result ≡ writer_of buffer.entry }
    {
        Writer { buffer, at: 0 }
    }

    #[tactic(auto, using(crate::proofs::Widths::sizes))]
    pub fn put_number<N: Number>(&mut self, x: N)
        ensures { self.new ≡ wrote (le_bytes N.SIZE (N.value x)) self.old }
    {
        let c = Cursor { at: self.at };
        self.at = put_number(&mut *self.buffer, c, x).at;
    }

    // A run of bytes.
    pub fn put(&mut self, bytes: &[u8])
        ensures { self.new ≡ wrote bytes.now self.old }
    {
        let c = Cursor { at: self.at };
        self.at = put_run(&mut *self.buffer, c, bytes).at;
    }

    // What was written: all bytes before the place.
    pub fn written(self) -> &'a [u8]
        ensures { result.now ≡ run_at self.entry.at self.entry.buffer.now at_front }
    {
        let at = self.at;
        let buffer = self.buffer;
        written(buffer, Cursor { at })
    }
}
