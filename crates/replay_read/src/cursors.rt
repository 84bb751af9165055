// Operations 14, take, and 15, put: a field at a cursor. A width of 0 is a run.
use fields::{Cursor, Number, Reader};

// A number, the cursor after it, and no run.
fn number<N: Number + Into<u64>>(s: &[u8], c: Cursor) -> Option<(u64, Cursor, &[u8])> {
    let (x, next) = fields::take_number::<N>(s, c)?;
    Some((x.into(), next, &[]))
}

// No number, the cursor after the run, and the run.
fn run(s: &[u8], c: Cursor, n: usize) -> Option<(u64, Cursor, &[u8])> {
    let next = fields::take_run(s, c, n)?;
    Some((0, next, fields::run(s, c, n)))
}

pub(crate) fn take(mut from: Reader, out: &mut [u8]) -> Option<usize> {
    let width: u8 = from.number()?;
    let c = Cursor {
        at: from.number::<u64>()? as usize,
    };
    let n = from.number::<u64>()? as usize;
    let s = framed::last_run(from)?;
    let taken = match width {
        0 => run(s, c, n),
        1 => number::<u8>(s, c),
        2 => number::<u16>(s, c),
        4 => number::<u32>(s, c),
        8 => number::<u64>(s, c),
        _ => return None,
    };
    let (value, next, part) = taken.unwrap_or((0, c, &[]));
    let mut to = framed::begin(out, None);
    to.put_number(u8::from(taken.is_some()));
    to.put_number(value);
    to.put_number(next.at as u64);
    framed::put_run(&mut to, part);
    Some(to.at)
}

// Writes the value, or the run, into the buffer; nothing for any other width.
fn write(buffer: &mut [u8], width: u8, c: Cursor, value: u64, what: &[u8]) -> Option<Cursor> {
    Some(match width {
        0 => fields::put_run(buffer, c, what),
        1 => fields::put_number(buffer, c, (value % 256) as u8),
        2 => fields::put_number(buffer, c, (value % 65536) as u16),
        4 => fields::put_number(buffer, c, (value % 4294967296) as u32),
        8 => fields::put_number(buffer, c, value),
        _ => return None,
    })
}

// The buffer's bytes stand behind the answer's head, 21 bytes, and the field is written there.
pub(crate) fn put(mut from: Reader, out: &mut [u8]) -> Option<usize> {
    let width = from.number()?;
    let c = Cursor {
        at: from.number::<u64>()? as usize,
    };
    let value = from.number()?;
    let what = framed::run(&mut from)?;
    let lent = framed::last_run(from)?;
    let end = fields::put_run(out, Cursor { at: 21 }, lent);
    let next = write(out.get_mut(21..end.at)?, width, c, value, what)?;
    let mut to = framed::begin(out, None);
    to.put_number(next.at as u64);
    framed::put_length(&mut to, lent.len());
    Some(end.at)
}
