// The operations on records.
use crate::operations::put_written;
use fields::{Cursor, Reader, Writer};
use record::{Body, Kind, Record, Row};

// The kind that a request names, and the sender, which only a counter has.
fn kind(from: &mut Reader) -> Option<Kind> {
    let number: u8 = from.number()?;
    let sender = from.number()?;
    Some(if number == 5 {
        Kind::Counter { sender }
    } else {
        Kind::Plain
    })
}

// The output's bytes stand behind the answer's head, 21 bytes, and are written there.
pub fn record(mut from: Reader, out: &mut [u8]) -> Option<usize> {
    let kind = kind(&mut from)?;
    let number = from.number()?;
    let code = framed::code(&mut from)?;
    let limit = from.number()?;
    let frame = framed::run(&mut from)?;
    let lent = framed::last_run(from)?;
    let end = fields::put_run(out, Cursor { at: 21 }, lent);
    let to = out.get_mut(21..end.at)?;
    let written = record::encode_frame_record(to, kind, number, code, frame, limit);
    put_written(out, written, lent.len());
    Some(end.at)
}

// The record's bytes stand behind the answer's head, 13 bytes, and are sealed there.
pub fn seal(mut from: Reader, out: &mut [u8]) -> Option<usize> {
    let generation = from.number()?;
    let lent = framed::last_run(from)?;
    let end = fields::put_run(out, Cursor { at: 13 }, lent);
    let sealed = record::seal_frame_record(out.get_mut(13..end.at)?, generation);
    let mut to = framed::begin(out, sealed.err());
    framed::put_length(&mut to, lent.len());
    Some(end.at)
}

fn put_body(to: &mut Writer, body: Body) {
    to.put_number(1u8);
    to.put_number(body.kind as u8);
    framed::put_counters(to, body.number, body.generation, body.sender);
    framed::put_code(to, body.code);
    to.put_number(body.frame as u64);
}

pub fn body(from: Reader, out: &mut [u8]) -> Option<usize> {
    let bytes = framed::last_run(from)?;
    let mut to = framed::begin(out, None);
    match record::decode_body(bytes) {
        Some(body) => put_body(&mut to, body),
        None => to.put(&[0; 43]),
    }
    Some(to.at)
}

fn put_record(to: &mut Writer, r: Record) {
    to.put_number(r.place);
    to.put_number(r.body);
    to.put_number(r.kind as u8);
    framed::put_counters(to, r.number, r.generation, r.sender);
    framed::put_code(to, r.code);
    to.put_number(r.frame);
}

fn row_number(row: Row) -> u8 {
    match row {
        Row::Under12 => 1,
        Row::ComplementWrong => 2,
        Row::LengthWrong => 3,
        Row::NotWhole => 4,
        Row::CrcWrong => 5,
        Row::BodyUnread => 6,
    }
}

pub fn seen(mut from: Reader, out: &mut [u8]) -> Option<usize> {
    let limit = from.number()?;
    let at = from.number::<u64>()? as usize;
    let bytes = framed::last_run(from)?;
    let mut to = framed::begin(out, None);
    match record::seen_at(bytes, at, limit) {
        Ok(r) => {
            to.put_number(0u8);
            put_record(&mut to, r);
        }
        Err(row) => {
            to.put_number(row_number(row));
            to.put(&[0; 58]);
        }
    }
    Some(to.at)
}
