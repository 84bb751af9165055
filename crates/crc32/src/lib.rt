// CRC-32 (IEEE 802.3), as zlib, gzip and PNG have it: eight bytes at a time, by a table of 2,048 entries in read-only memory.
//
//     crc32(b"123456789")                        0xCBF4_3926
//     resume(crc32(b"12345"), b"6789")           the same: bytes in two parts
//
// `update` goes on from a register: it starts at 0xFFFF_FFFF, and its complement is the CRC-32.
// Each takes any bytes of any number. The definition, bit by bit, is specs/Crc.antt.
//
// Eight bytes go through the table at once: the register is put into the first four, and each of the eight then has a row of its own.
#![tactic(auto)]

ghost use Rattle.std.specs.Prelude.{◌≡◌, ◌++◌, ◌-◌, ◌<◌, get_or, drop};
ghost use Rattle.fields.specs.Fields.{le_bytes};
ghost use Rattle.crc32.specs.Crc.{next, crc_from, crc_of, crc_on};

mod table;

use crate::table::entry;
use fields::inside::number_at;

// The register at the start, and what the register at the end is complemented by.
const ONES: u32 = 0xffff_ffff;

// The byte that a row is for: row 0 has the last of the eight bytes, row 7 the first. The first four are taken from x.
#[tactic(auto, using(crate::proofs::Rows::from_bytes, crate::proofs::Rows::from_number))]
fn row_byte(x: u32, bytes: &[u8; 8], row: usize) -> u8
    requires { row < 8 }
    ensures { result ≡ get_or (le_bytes 4 x ++ drop 4 bytes.now) (7 - row) 0 }
{
    if row < 4 {
        bytes[7 - row]
    } else {
        ((x >> (56 - 8 * row)) & 0xff) as u8
    }
}

// The register after eight bytes. Rows go up, and so the bytes down: the last four don't wait for the register.
#[tactic(auto, using(crate::proofs::Rows::no_row, crate::proofs::Rows::one_row, crate::proofs::Rows::all_rows, crate::proofs::Xor::xor_small))]
fn eight(c: u32, bytes: &[u8; 8]) -> u32
    ensures { result ≡ crc_from c bytes.now }
{
    let x = c ^ number_at::<u32>(bytes, 0);
    let mut r = 0;
    for row in 0..8 {
        r ^= entry(row, row_byte(x, bytes, row));
    }
    r
}

// The register after one byte.
#[tactic(auto, using(crate::proofs::Rows::by_entry))]
fn one(c: u32, byte: u8) -> u32
    ensures { result ≡ next c byte }
{
    (c >> 8) ^ entry(0, ((c & 0xff) as u8) ^ byte)
}

// The register after the bytes, one at a time.
#[tactic(auto, using(crate::proofs::Joined::from_none, crate::proofs::Joined::from_one_more))]
fn bytewise(state: u32, bytes: &[u8]) -> u32
    ensures { result ≡ crc_from state bytes.now }
{
    let mut c = state;
    for &byte in bytes {
        c = one(c, byte);
    }
    c
}

// The register after the bytes, from the register before them. It stays one function, which its callers call: put in line in a scan it takes
// more instructions (docs/DECISIONS.md, CRC-32).
#[inline(never)]
#[tactic(auto, using(crate::proofs::Rows::eight_on))]
pub fn update(state: u32, bytes: &[u8]) -> u32
    ensures { result ≡ crc_from state bytes.now }
{
    let mut c = state;
    let mut left = bytes;
    while let Some((first, rest)) = left.split_first_chunk::<8>() {
        c = eight(c, first);
        left = rest;
    }
    bytewise(c, left)
}

// The CRC-32 of the bytes.
#[tactic(auto, unfolding(crate::specs::Crc::crc_of))]
pub fn crc32(bytes: &[u8]) -> u32
    ensures { result ≡ crc_of bytes.now }
{
    update(ONES, bytes) ^ ONES
}

// From the CRC-32 of some bytes, that of the same with more bytes after them.
#[tactic(auto, unfolding(crate::specs::Crc::crc_on))]
pub fn resume(crc: u32, bytes: &[u8]) -> u32
    ensures { result ≡ crc_on crc bytes.now }
{
    update(crc ^ ONES, bytes) ^ ONES
}
