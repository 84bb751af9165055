// Little-endian fields: reads and writes of numbers and of runs of bytes, on a slice and a cursor.
//
// A cursor is a place, any place. A read past the end takes nothing, and says so; a write past the end writes nothing, and
// leaves the cursor where it was. No function here asks anything of its caller; those of the module `inside` do, the two methods of the trait
// `Number` among them. `Reader` and `Writer` hold the slice and the place in one:
//
//     let mut input = Reader::new(bytes);        let mut to = Writer::new(&mut bytes);
//     let length: u32 = input.number()?;         to.put_number(length);
//     let name = input.take(8);                  to.put(name);
//     let all_else = input.rest();
//
// The definitions are specs/Fields.antt, specs/Cursors.antt and specs/Holders.antt; proofs/Laws.antt has the laws: what was written is read
// back, and nothing else changes.
#![tactic(auto)]

ghost use Rattle.std.specs.Prelude.{◌≡◌, length, drop, Option, Some, None};
ghost use Rattle.fields.specs.Fields.{le, le_bytes};
ghost use Rattle.fields.specs.Cursors.{taken, run_at, put_at, after, at_front};

pub mod inside;
mod reading;
mod writing;

pub use inside::Number;
use inside::{number_at, put_number_at, put_run_at};
pub use reading::Reader;
pub use writing::Writer;

// A place in a slice.
#[derive(Clone, Copy)]
pub struct Cursor {
    pub at: usize,
}

// The cursor at the front.
pub const FRONT: Cursor = Cursor { at: 0 };

// The cursor after the next n bytes, which `run` hands out; or nothing, where they are not all there.
pub fn take_run(s: &[u8], c: Cursor, n: usize) -> Option<Cursor>
    ensures { result ≡ taken n Some None s.now c }
{
    if c.at <= s.len() && n <= s.len() - c.at {
        Some(Cursor { at: c.at + n })
    } else {
        None
    }
}

// The number that stands next, with the cursor after it; or nothing, where its bytes are not all there.
pub fn take_number<N: Number>(s: &[u8], c: Cursor) -> Option<(N, Cursor)>
    ensures { result ≡ taken N.SIZE (λ d. Some (N.of (le N.SIZE s.now c.at), d)) None s.now c }
{
    let next = take_run(s, c, N::SIZE)?;
    Some((number_at(s, c.at), next))
}

// The next n bytes, as a part of the slice; an empty part, where they are not all there.
pub fn run(s: &[u8], c: Cursor, n: usize) -> &[u8]
    ensures { result.now ≡ run_at n s.now c }
{
    match take_run(s, c, n) {
        Some(next) => &s[c.at..next.at],
        None => &[],
    }
}

// All bytes from the cursor on.
pub fn rest(s: &[u8], c: Cursor) -> &[u8]
    ensures { result.now ≡ drop c.at s.now }
{
    s.get(c.at..).unwrap_or(&[])
}

// All bytes before the cursor: what was written, by writes from the front on.
pub fn written(s: &[u8], c: Cursor) -> &[u8]
    ensures { result.now ≡ run_at c.at s.now at_front }
{
    run(s, FRONT, c.at)
}

#[tactic(auto, using(crate::proofs::Widths::sizes))]
pub fn put_number<N: Number>(out: &mut [u8], c: Cursor, x: N) -> Cursor
    ensures value { result ≡ after N.SIZE out.old c }
    ensures out_after { out.new ≡ put_at (le_bytes N.SIZE (N.value x)) out.old c }
{
    let Some(next) = take_run(out, c, N::SIZE) else {
        return c;
    };
    put_number_at(out, c.at, x);
    next
}

pub fn put_run(out: &mut [u8], c: Cursor, bytes: &[u8]) -> Cursor
    ensures value { result ≡ after (length bytes.now) out.old c }
    ensures out_after { out.new ≡ put_at bytes.now out.old c }
{
    let Some(next) = take_run(out, c, bytes.len()) else {
        return c;
    };
    put_run_at(out, c.at, bytes);
    next
}
