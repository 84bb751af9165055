// Fields at the edges of twelve bytes, 1 to 12. A line for each write: place, width, the cursor and the bytes after it. A line for each
// read: place, width, and the cursor after it with what was read, or nothing. The file stdout was computed apart from this code, by
// another language's little-endian conversions.
#![tactic(auto)]

use fields::{Cursor, Number};
use std::io;

const ASCENDING: [u8; 12] = [1, 2, 3, 4, 5, 6, 7, 8, 9, 10, 11, 12];

fn bytes(rt: &impl Print, s: &[u8]) -> io::Result<()> {
    print!(rt; " ")?;
    for b in s {
        print!(rt; "{b:02x}")?;
    }
    print!(rt; "\n")
}

fn wrote(rt: &impl Print, c: Cursor, s: &[u8; 12]) -> io::Result<()> {
    print!(rt; " {}", c.at)?;
    bytes(rt, s)
}

fn put<N: Number>(rt: &impl Print, at: usize, x: N) -> io::Result<()> {
    print!(rt; "put {at} {}", N::SIZE)?;
    let mut s = ASCENDING;
    wrote(rt, fields::put_number(&mut s, Cursor { at }, x), &s)
}

fn put_run(rt: &impl Print, at: usize) -> io::Result<()> {
    print!(rt; "put {at} 3")?;
    let mut s = ASCENDING;
    let next = fields::put_run(&mut s, Cursor { at }, b"\xe1\xe2\xe3");
    wrote(rt, next, &s)
}

fn take<N: Number + Into<u64>>(rt: &impl Print, s: &[u8], c: Cursor) -> io::Result<()> {
    print!(rt; "take {} {}", c.at, N::SIZE)?;
    match fields::take_number::<N>(s, c) {
        Some((x, next)) => print!(rt; " {} {:02x}\n", next.at, x.into()),
        None => print!(rt; " nothing\n"),
    }
}

fn take_run(rt: &impl Print, s: &[u8], c: Cursor) -> io::Result<()> {
    print!(rt; "take {} 3", c.at)?;
    match fields::take_run(s, c, 3) {
        Some(next) => print!(rt; " {}", next.at)?,
        None => print!(rt; " nothing")?,
    }
    bytes(rt, fields::run(s, c, 3))?;
    print!(rt; "written {}", c.at)?;
    bytes(rt, fields::written(s, c))?;
    print!(rt; "rest {}", c.at)?;
    bytes(rt, fields::rest(s, c))
}

fn at(rt: &impl Print, place: usize) -> io::Result<()> {
    let s = &ASCENDING;
    let c = Cursor { at: place };
    put(rt, place, 0xa1u8)?;
    put(rt, place, 0xb2b1u16)?;
    put(rt, place, 0xc4c3_c2c1u32)?;
    put(rt, place, 0xd8d7_d6d5_d4d3_d2d1u64)?;
    put_run(rt, place)?;
    take::<u8>(rt, s, c)?;
    take::<u16>(rt, s, c)?;
    take::<u32>(rt, s, c)?;
    take::<u64>(rt, s, c)?;
    take_run(rt, s, c)
}

fn main(rt: HostRuntime) -> io::Result<()> {
    for place in [0, 4, 5, 8, 9, 10, 11, 12, 13, 0xffff_ffff_ffff_ffff] {
        at(&rt, place)?;
    }
    Ok(())
}
