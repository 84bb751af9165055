// Records at the edges of the format. A line for each write: kind, letters of the code, bytes of the frame, frame limit, room, and the
// answer with the output after it. A line for each seal: the bytes given, the answer and the bytes after it. A line for each look:
// place, body limit, bytes, and the record or the test that fails. The file stdout was computed apart from this code, by another
// language's CRC-32 and conversions.
#![tactic(auto)]

ghost use Rattle.std.specs.Prelude.{◌≤◌};

use fields::Cursor;
use record::{Kind, MsgType, Record, Row};
use std::io;

fn bytes(rt: &impl Print, s: &[u8]) -> io::Result<()> {
    print!(rt; " ")?;
    for b in s {
        print!(rt; "{b:02x}")?;
    }
    Ok(())
}

// The code `D`, `D2345678`, or `D2345678` with a length that no code has.
fn code(len: u8) -> MsgType {
    MsgType {
        bytes: [0x44, 0x32, 0x33, 0x34, 0x35, 0x36, 0x37, 0x38],
        len,
    }
}

// One byte as a code.
fn letter(b: u8) -> MsgType {
    MsgType {
        bytes: [b, 0, 0, 0, 0, 0, 0, 0],
        len: 1,
    }
}

// Message number 2, into all of the output.
fn write(
    rt: &impl Print,
    kind: Kind,
    c: MsgType,
    frame: &[u8],
    limit: u64,
    out: &mut [u8],
) -> io::Result<()> {
    print!(rt; " {} {} {limit} {}", c.len, frame.len(), out.len())?;
    match record::encode_frame_record(out, kind, 2, c, frame, limit) {
        Ok(n) => print!(rt; " written {n}")?,
        Err(refusal) => print!(rt; " {refusal}")?,
    }
    bytes(rt, out)?;
    print!(rt; "\n")
}

// Kind 1, into so many bytes of 255, at most 30.
fn plain<const N: usize>(rt: &impl Print, c: MsgType, frame: &[u8], limit: u64) -> io::Result<()>
    requires { N ≤ 30 }
{
    let mut out = [255u8; N];
    print!(rt; "plain")?;
    write(rt, Kind::Plain, c, frame, limit, &mut out)
}

// Kind 5 with next sender 9, into 43 bytes.
fn counter(rt: &impl Print, c: MsgType, frame: &[u8], limit: u64) -> io::Result<()> {
    let mut out = [255u8; 43];
    print!(rt; "counter")?;
    write(rt, Kind::Counter { sender: 9 }, c, frame, limit, &mut out)
}

// Each refusal, and each before those that follow it.
fn refusals(rt: &impl Print) -> io::Result<()> {
    plain::<30>(rt, code(9), b"8=FIX", 67108865)?;
    plain::<26>(rt, code(9), b"8=FIX", 4)?;
    plain::<26>(rt, code(9), b"8=FI", 4)?;
    plain::<26>(rt, code(1), b"8=FI", 4)?;
    plain::<30>(rt, code(0), b"8=FI", 4)?;
    plain::<30>(rt, code(255), b"8=FI", 4)?;
    plain::<30>(rt, letter(0x20), b"8=FI", 4)?;
    plain::<30>(rt, letter(0x7f), b"8=FI", 4)
}

fn written(rt: &impl Print) -> io::Result<()> {
    plain::<30>(rt, code(1), b"8=FI", 4)?;
    plain::<30>(rt, code(1), b"8=FI", 67108864)?;
    plain::<30>(rt, code(8), b"", 0)?;
    plain::<30>(rt, letter(0x21), b"8=FI", 4)?;
    plain::<30>(rt, letter(0x7e), b"8=FI", 4)?;
    counter(rt, code(1), b"8=FI", 4)
}

// So many bytes of 5, sealed with generation 7. Of 28, kind 5 is a byte short of room for a generation.
fn seal(rt: &impl Print, out: &mut [u8]) -> io::Result<()> {
    print!(rt; "seal")?;
    bytes(rt, out)?;
    match record::seal_frame_record(out, 7) {
        Ok(()) => print!(rt; " sealed")?,
        Err(refusal) => print!(rt; " {refusal}")?,
    }
    bytes(rt, out)?;
    print!(rt; "\n")
}

fn seals(rt: &impl Print) -> io::Result<()> {
    seal(rt, &mut [5; 11])?;
    seal(rt, &mut [5; 12])?;
    seal(rt, &mut [5; 28])?;
    seal(rt, &mut [5; 29])
}

fn found(rt: &impl Print, r: Record) -> io::Result<()> {
    print!(rt;
        " sound {} {} {} {}",
        r.place, r.body, r.kind as u8, r.number
    )?;
    print!(rt; " {} {}", r.generation, r.sender)?;
    bytes(rt, &r.code.bytes)?;
    print!(rt; " {} {}", r.code.len, r.frame)
}

fn row(rt: &impl Print, row: Row) -> io::Result<()> {
    match row {
        Row::Under12 => print!(rt; " under 12"),
        Row::ComplementWrong => print!(rt; " complement"),
        Row::LengthWrong => print!(rt; " length"),
        Row::NotWhole => print!(rt; " not whole"),
        Row::CrcWrong => print!(rt; " CRC"),
        Row::BodyUnread => print!(rt; " body"),
    }
}

fn look(rt: &impl Print, s: &[u8], at: usize, limit: u64) -> io::Result<()> {
    print!(rt; "look {at} {limit}")?;
    bytes(rt, s)?;
    match record::seen_at(s, at, limit) {
        Ok(r) => found(rt, r)?,
        Err(fault) => row(rt, fault)?,
    }
    print!(rt; "\n")
}

// Number 2, kind 5, generation 7, sender 9.
fn filed() -> [u8; 43] {
    let mut w = [0u8; 43];
    let kind = Kind::Counter { sender: 9 };
    let _ = record::encode_frame_record(&mut w, kind, 2, code(1), b"8=FI", 4);
    let _ = record::seal_frame_record(&mut w, 7);
    w
}

// A record at 2 of 45 bytes.
fn placed(w: [u8; 43]) -> [u8; 45] {
    let mut s = [0u8; 45];
    fields::put_run(&mut s, Cursor { at: 2 }, &w);
    s
}

// The first n bytes.
fn cut(s: &[u8], n: usize) -> &[u8] {
    fields::run(s, fields::FRONT, n)
}

fn looks(rt: &impl Print, s: &[u8]) -> io::Result<()> {
    look(rt, s, 2, 31)?;
    look(rt, s, 2, 30)?;
    look(rt, s, 0, 31)?;
    look(rt, s, 45, 31)?;
    look(rt, s, 46, 31)?;
    look(rt, cut(s, 44), 2, 31)?;
    look(rt, cut(s, 44), 2, 30)?;
    look(rt, cut(s, 14), 2, 31)?;
    look(rt, cut(s, 13), 2, 31)
}

fn look_placed(rt: &impl Print, w: [u8; 43]) -> io::Result<()> {
    let s = placed(w);
    look(rt, &s, 2, 31)
}

// A byte of the complement, of the CRC-32 and of the frame changed.
fn damaged(rt: &impl Print) -> io::Result<()> {
    for at in [4, 11, 42] {
        let mut w = filed();
        w[at] = 0;
        look_placed(rt, w)?;
    }
    Ok(())
}

// A length of 0; and a body that doesn't read, sealed.
fn unread(rt: &impl Print) -> io::Result<()> {
    let mut none = filed();
    none[0] = 0;
    none[4] = 255;
    look_placed(rt, none)?;
    let mut kind = filed();
    kind[12] = 4;
    let _ = record::seal_frame_record(&mut kind, 7);
    look_placed(rt, kind)
}

fn main(rt: HostRuntime) -> io::Result<()> {
    refusals(&rt)?;
    written(&rt)?;
    seals(&rt)?;
    let s = placed(filed());
    looks(&rt, &s)?;
    damaged(&rt)?;
    unread(&rt)
}
