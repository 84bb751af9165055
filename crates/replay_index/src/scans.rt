// Operations 11, scan, and 12, re-read.
use crate::indexes;
use fields::{Reader, Writer};
use index::Entry;
use journal::Rule;
use journal::answers::Scan;

// The rule that a request names: its kind, and the records that may be missing, which only the first has.
fn rule(from: &mut Reader) -> Option<Rule> {
    let kind: u8 = from.number()?;
    let records = from.number()?;
    match kind {
        1 => Some(Rule::Tail { records }),
        2 => Some(Rule::Anywhere),
        3 => Some(Rule::Salvage),
        _ => None,
    }
}

// What stands behind the refusal, up to the cut.
fn put_front(to: &mut Writer, scan: Scan) {
    framed::put_header(to, scan.header);
    to.put(&scan.slots);
    to.put_number(scan.active as u8);
    to.put_number(scan.count as u64);
    to.put_number(scan.end);
}

// From the cut on, up to the index: the counters that follow, and what the newest slot says.
fn put_back(to: &mut Writer, scan: Scan) {
    to.put_number(scan.cut.kind());
    to.put_number(scan.cut.dropped());
    to.put_number(scan.dead);
    framed::put_counters(to, scan.sender, scan.target, scan.generation);
    to.put_number(scan.boundary);
    to.put_number(scan.watermark);
    to.put_number(u8::from(scan.reset));
    to.put_number(u8::from(scan.stale));
}

// Operation 11: a rule, the index and a journal, which is scanned.
pub(crate) fn scan(mut from: Reader, out: &mut [u8]) -> Option<usize> {
    let rule = rule(&mut from)?;
    let limit = from.number()?;
    let mut entries = [Entry::default(); 1024];
    let room = indexes::index(&mut from, &mut entries)?;
    let journal = framed::last_run(from)?;
    if out.len() < 221 + 24 * room {
        return None;
    }
    let scanned = held::scan(journal, rule, limit, entries, room);
    let mut to = framed::begin(out, scanned.scan.err());
    match scanned.scan {
        Ok(scan) => {
            put_front(&mut to, scan);
            put_back(&mut to, scan);
        }
        Err(_) => to.put(&[0; 208]),
    }
    indexes::put_index(&mut to, &scanned.entries[..room]);
    Some(to.at)
}

// Operation 12: an entry, a message number and a journal, from which the message is read again; a refusal has no code and no frame.
pub(crate) fn reread(mut from: Reader, out: &mut [u8]) -> Option<usize> {
    let entry = indexes::entry(&mut from)?;
    let number = from.number()?;
    let journal = framed::last_run(from)?;
    match journal::reread(journal, entry, number) {
        Ok(read) => {
            let frame = journal::frame_of(journal, read);
            if out.len().checked_sub(30)? < frame.len() {
                return None;
            }
            let mut to = framed::begin(out, None);
            framed::put_code(&mut to, read.code);
            to.put_number(read.frame);
            framed::put_run(&mut to, frame);
            Some(to.at)
        }
        Err(refusal) => {
            let mut to = framed::begin(out, Some(refusal));
            to.put(&[0; 21]);
            Some(to.at)
        }
    }
}
