// The static library for a host in C or Rust (include/bulvreden.h). Each export calls the function of the crate `host` that has its name, with
// the same arguments, and promises the same: the definitions are those that `host` cites.
//
// A slice comes as a pointer and then a length, a struct by value. C must see to it that pointers are aligned, that nothing lent to be written
// overlaps another part, and that null comes with length 0 alone.
#![tactic(auto)]

ghost use Rattle.std.specs.Prelude.{◌≡◌, length};
ghost use Rattle.crc32.specs.Crc.{crc_of, crc_on};
ghost use Rattle.journal.specs.Reread.{reread_of};
ghost use Rattle.prefix.specs.Prefix.{prefix_answer, prefix_out};
ghost use Rattle.record.specs.Seal.{seal_answer, seal_out};
ghost use Rattle.host.specs.Host.{host_scan, host_index, flat_message};
ghost use Rattle.host.specs.Writing.{host_wrote, host_write, sealed_as, header_by, images_by, prefix_wrote, host_fresh, host_image};

use host::{Code, Counters, Found, Fresh, Image, Made, Message, Sealed, Slots, Wrote};
use index::Entry;

// Reads a journal under a rule, and files its records in the lent index. kind: 1 Tail, with records; 2 Anywhere; 3 Salvage; else 28.
#[unsafe(no_mangle)]
pub extern "C" fn bulvreden_scan(
    journal: &[u8],
    kind: u64,
    records: u64,
    limit: u64,
    entries: &mut [Entry],
) -> Found
    ensures value { result ≡ host_scan kind records limit (length entries.old) journal.now }
    ensures entries_after { entries.new ≡ host_index kind limit entries.old journal.now }
{
    host::bulvreden_scan(journal, kind, records, limit, entries)
}

// Reads a message again, by its entry and its number. The frame stays where it is: the host finds it at the place that is answered.
#[unsafe(no_mangle)]
pub extern "C" fn bulvreden_reread(journal: &[u8], entry: Entry, number: u64) -> Message
    ensures { result ≡ flat_message (reread_of journal.now entry number) }
{
    host::bulvreden_reread(journal, entry, number)
}

// Writes a record at the output's start, to be sealed. kind: 1 plain, 5 with the next sender; else 28. A plain one ignores the sender.
#[unsafe(no_mangle)]
pub extern "C" fn bulvreden_write(
    out: &mut [u8],
    kind: u64,
    sender: u64,
    number: u64,
    code: Code,
    frame: &[u8],
    limit: u64,
) -> Wrote
    ensures value { result ≡ host_wrote out.old kind sender number code frame.now limit }
    ensures out_after { out.new ≡ host_write out.old kind sender number code frame.now limit }
{
    host::bulvreden_write(out, kind, sender, number, code, frame, limit)
}

// Seals a written record, in its place.
#[unsafe(no_mangle)]
pub extern "C" fn bulvreden_seal(bytes: &mut [u8], generation: u64) -> Sealed
    ensures value { result ≡ sealed_as (seal_answer bytes.old) }
    ensures bytes_after { bytes.new ≡ seal_out generation bytes.old }
{
    host::bulvreden_seal(bytes, generation)
}

// The images of two slots that start from these counters: these, and the same a generation on.
#[unsafe(no_mangle)]
pub extern "C" fn bulvreden_fresh_slots(first: Counters) -> Fresh
    ensures { result ≡ host_fresh first }
{
    host::bulvreden_fresh_slots(first)
}

// The image of one slot.
#[unsafe(no_mangle)]
pub extern "C" fn bulvreden_slot(counters: Counters) -> Image
    ensures { result ≡ host_image counters }
{
    host::bulvreden_slot(counters)
}

// Writes a journal's prefix at the output's start. The images aren't tested.
#[unsafe(no_mangle)]
pub extern "C" fn bulvreden_prefix(out: &mut [u8], made: Made, slots: Slots) -> Wrote
    ensures value { result ≡ prefix_wrote (prefix_answer out.old (header_by made)) }
    ensures out_after { out.new ≡ prefix_out out.old (header_by made) (images_by slots) }
{
    host::bulvreden_prefix(out, made, slots)
}

// The CRC-32 of the bytes.
#[unsafe(no_mangle)]
pub extern "C" fn bulvreden_crc32(bytes: &[u8]) -> u32
    ensures { result ≡ crc_of bytes.now }
{
    host::bulvreden_crc32(bytes)
}

// From the CRC-32 of some bytes, that of the same with more bytes after them.
#[unsafe(no_mangle)]
pub extern "C" fn bulvreden_crc32_resume(crc: u32, bytes: &[u8]) -> u32
    ensures { result ≡ crc_on crc bytes.now }
{
    host::bulvreden_crc32_resume(crc, bytes)
}
