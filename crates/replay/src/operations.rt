// One function an operation: takes the request apart, calls the port, and writes all that it left. The result is the answer's length,
// or nothing for a request that isn't one.
use crate::records;
use fields::{Cursor, Reader, Writer};
use prefix::{Header, Slot};
use refusals::Refusal;

pub fn respond(request: &[u8], out: &mut [u8]) -> Option<usize> {
    let mut from = Reader::new(request);
    match from.number::<u8>()? {
        1 => crc(from, out),
        2 => header(from, out),
        3 => slot(from, out),
        4 => newest(from, out),
        5 => slots(from, out),
        6 => prefix(from, out),
        7 => records::record(from, out),
        8 => records::seal(from, out),
        9 => records::body(from, out),
        10 => records::seen(from, out),
        11 | 12 | 16 | 17 => replay_index::respond(request, out),
        13 | 14 | 15 => replay_read::respond(request, out),
        _ => None,
    }
}

fn crc(mut from: Reader, out: &mut [u8]) -> Option<usize> {
    let first = framed::run(&mut from)?;
    let more = framed::last_run(from)?;
    let mut to = framed::begin(out, None);
    to.put_number(crc32::resume(crc32::crc32(first), more));
    Some(to.at)
}

fn header(from: Reader, out: &mut [u8]) -> Option<usize> {
    let read = prefix::decode_header(framed::last_run(from)?);
    let mut to = framed::begin(out, read.err());
    match read {
        Ok(header) => framed::put_header(&mut to, header),
        Err(_) => to.put(&[0; 28]),
    }
    Some(to.at)
}

fn slot(from: Reader, out: &mut [u8]) -> Option<usize> {
    let image = framed::last_run(from)?;
    let mut to = framed::begin(out, None);
    match prefix::decode_slot(image) {
        Some(s) => {
            to.put_number(1u8);
            framed::put_slot(&mut to, s);
        }
        None => to.put(&[0; 42]),
    }
    Some(to.at)
}

fn newest(mut from: Reader, out: &mut [u8]) -> Option<usize> {
    let zero = framed::run(&mut from)?;
    let one = framed::last_run(from)?;
    let found = prefix::find_newest(zero, one);
    let mut to = framed::begin(out, found.err());
    match found {
        Ok(newest) => {
            to.put_number(newest.position as u8);
            framed::put_slot(&mut to, newest.slot);
        }
        Err(_) => to.put(&[0; 42]),
    }
    framed::put_run(&mut to, prefix::newest_slot(zero, one));
    Some(to.at)
}

fn slots(mut from: Reader, out: &mut [u8]) -> Option<usize> {
    let slot = Slot {
        generation: from.number()?,
        sender: from.number()?,
        target: from.number()?,
        end: from.number()?,
        watermark: from.number()?,
        reset: from.number::<u8>()? == 1,
    };
    framed::end(from)?;
    let next = prefix::fresh_next(slot.generation);
    let images = prefix::fresh_slots(slot);
    let mut to = framed::begin(out, next.err());
    to.put_number(next.unwrap_or(0));
    to.put(&images[0]);
    to.put(&images[1]);
    Some(to.at)
}

// The answer to a write into a lent output, up to the output.
pub fn put_written(out: &mut [u8], written: Result<usize, Refusal>, lent: usize) {
    let mut to = framed::begin(out, written.err());
    to.put_number(written.unwrap_or(0) as u64);
    framed::put_length(&mut to, lent);
}

// The output's bytes stand behind the answer's head, 21 bytes, and are written there.
fn prefix(mut from: Reader, out: &mut [u8]) -> Option<usize> {
    let header = Header {
        seconds: from.number()?,
        nanoseconds: from.number()?,
        sender: from.number()?,
        target: from.number()?,
    };
    let images = [framed::array(&mut from)?, framed::array(&mut from)?];
    let lent = framed::last_run(from)?;
    let end = fields::put_run(out, Cursor { at: 21 }, lent);
    let written = prefix::encode_prefix(out.get_mut(21..end.at)?, header, images);
    put_written(out, written, lent.len());
    Some(end.at)
}
