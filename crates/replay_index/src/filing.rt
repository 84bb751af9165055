// Operations 16, insert, and 17, lookup.
use crate::indexes;
use fields::{Reader, Writer};
use index::Entry;
use refusals::Refusal;

// Operation 16: the index, count, dead bytes and an entry; that entry is filed.
pub(crate) fn insert(mut from: Reader, out: &mut [u8]) -> Option<usize> {
    let mut entries = [Entry::default(); 1024];
    let room = indexes::index(&mut from, &mut entries)?;
    let count = from.number::<u64>()? as usize;
    let dead = from.number()?;
    let entry = indexes::entry(&mut from)?;
    framed::end(from)?;
    if out.len() < 29 + 24 * room {
        return None;
    }
    let inserted = index::insert(&mut entries[..room], count, dead, entry);
    let filed = inserted.unwrap_or_default();
    let mut to = framed::begin(out, inserted.err().map(Refusal::new));
    to.put_number(filed.count as u64);
    to.put_number(filed.dead);
    indexes::put_index(&mut to, &entries[..room]);
    Some(to.at)
}

// Whether an entry was found, 1 or 0, and the entry, zeros where none was.
fn put_found(to: &mut Writer, found: Option<Entry>) {
    to.put_number(u8::from(found.is_some()));
    indexes::put_entry(to, found.unwrap_or_default());
}

// Operation 17: the index, count and a message number; its entry is looked up.
pub(crate) fn lookup(mut from: Reader, out: &mut [u8]) -> Option<usize> {
    let mut entries = [Entry::default(); 1024];
    let room = indexes::index(&mut from, &mut entries)?;
    let count = from.number::<u64>()? as usize;
    let number = from.number()?;
    framed::end(from)?;
    if out.len() < 38 + 24 * room {
        return None;
    }
    let mut to = framed::begin(out, None);
    put_found(&mut to, index::lookup(&entries[..room], count, number));
    indexes::put_index(&mut to, &entries[..room]);
    Some(to.at)
}
