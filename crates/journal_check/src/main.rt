// The check program: reads a request from standard input, a rule and a journal, and writes what a scan of the journal comes to.
// Crate `report` says what a request is, and makes the text. Where the input can't be read, nothing is written.
#![tactic(auto)]

ghost use Rattle.std.specs.Prelude.{◌≤◌, length, IfOk};

use std::io;
use std::io::Read;

// Reads until the input ends, the room is full or a read fails, whatever the sizes of the reads: how many bytes.
fn receive(input: &mut impl Read, room: &mut [u8]) -> io::Result<usize>
    ensures { IfOk result (λ count. count ≤ length room.old) }
{
    let mut count = 0;
    loop {
        let next = input.read(&mut room[count..])?;
        if next == 0 {
            return Ok(count);
        }
        count += next;
    }
}

fn main(rt: HostRuntime) -> io::Result<()> {
    // Room for one byte more than the longest request that isn't 29. What follows changes no answer.
    let mut input = [0; 65554];
    let Ok(count) = receive(&mut rt.stdin(), &mut input) else {
        return Ok(());
    };
    // Room for the longest text.
    let mut text = [0; 90112];
    let n = report::report(&input[..count], &mut text);
    rt.write_all(&text[..n])
}
