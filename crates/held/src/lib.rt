// An index by value: 1,024 entries, of which the first `room` are lent to the port for one call. The others don't change.
//
//     let scanned = held::scan(journal, rule, limit, entries, 1024);
//
// It is for programs that keep their index in a local: they hand the entries over by value, and only these functions lend them as a slice.
// Each call copies the entries, 24,576 bytes. A room above 1,024 is 1,024.
// The definitions are in specs/Held.antt.
#![tactic(auto)]

ghost use Rattle.std.specs.Prelude.{◌≡◌, min};
ghost use Rattle.held.specs.Held.{held_scan, held_insert, held_lookup};

use index::{Entry, Filed};
use journal::Rule;
use journal::answers::Scan;
use refusals::{Reason, Refusal};

// What a scan answers, and the entries that it left.
#[derive(Clone, Copy)]
pub struct Scanned {
    pub scan: Result<Scan, Refusal>,
    pub entries: [Entry; 1024],
}

// What filing an entry answers, and the entries that it left.
#[derive(Clone, Copy)]
pub struct Inserted {
    pub filed: Result<Filed, Reason>,
    pub entries: [Entry; 1024],
}

// As many of the entries as there are.
pub fn within(room: usize) -> usize
    ensures { result ≡ min room 1024 }
{
    room.min(1024)
}

// A scan that files in the first `room` entries.
#[tactic(auto, unfolding(crate::specs::Held::held_scan))]
pub fn scan(journal: &[u8], rule: Rule, limit: u64, entries: [Entry; 1024], room: usize) -> Scanned
    ensures { result ≡ held_scan limit rule (min room 1024) journal.now entries }
{
    let k = within(room);
    let mut held = entries;
    let scan = journal::scan(journal, rule, limit, &mut held[..k]);
    Scanned {
        scan,
        entries: held,
    }
}

// An entry filed among the first `room` entries, of which `count` are in use.
#[tactic(auto, unfolding(crate::specs::Held::held_insert))]
pub fn insert(
    entries: [Entry; 1024],
    room: usize,
    count: usize,
    dead: u64,
    entry: Entry,
) -> Inserted
    ensures { result ≡ held_insert (min room 1024) entries count dead entry }
{
    let k = within(room);
    let mut held = entries;
    let filed = index::insert(&mut held[..k], count, dead, entry);
    Inserted {
        filed,
        entries: held,
    }
}

// The entry with a number, of the first `count` of the first `room` entries.
#[tactic(auto, unfolding(crate::specs::Held::held_lookup))]
pub fn lookup(entries: [Entry; 1024], room: usize, count: usize, number: u64) -> Option<Entry>
    ensures { result ≡ held_lookup (min room 1024) entries count number }
{
    let k = within(room);
    index::lookup(&entries[..k], count, number)
}
