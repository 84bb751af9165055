// An index in a request and in an answer: its room, a u32, then so many entries of message number, offset and body length.
ghost use Rattle.std.specs.Prelude.{◌≤◌, IfSome};

use fields::{Reader, Writer};
use index::Entry;

pub(crate) fn entry(from: &mut Reader) -> Option<Entry> {
    Some(Entry {
        number: from.number()?,
        offset: from.number()?,
        body: from.number()?,
    })
}

// The entries go to the front of those lent; the room, at most 1,024. They are lent, since each move of them copies 24,576 bytes.
pub(crate) fn index(from: &mut Reader, entries: &mut [Entry; 1024]) -> Option<usize>
    ensures { IfSome result (λ room. room ≤ 1024) }
{
    let room = from.number::<u32>()? as usize;
    for place in entries.get_mut(..room)? {
        *place = entry(from)?;
    }
    Some(room)
}

// Message number, offset, body length.
pub(crate) fn put_entry(to: &mut Writer, entry: Entry) {
    framed::put_counters(to, entry.number, entry.offset, entry.body);
}

// The room, and the entries.
pub(crate) fn put_index(to: &mut Writer, entries: &[Entry]) {
    framed::put_length(to, entries.len());
    for &entry in entries {
        put_entry(to, entry);
    }
}
