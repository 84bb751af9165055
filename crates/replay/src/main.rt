// Answers the requests of the oracle's protocol (oracle/README.md) with the port: reads them from standard input until it ends, and writes
// an answer to each. A request that isn't one ends the program.
#![tactic(auto)]

mod operations;
mod records;

use std::io;
use std::io::Read;

// The next request, at the start of the buffer; nothing where none follows.
fn receive<'a>(input: &mut impl Read, buffer: &'a mut [u8]) -> Option<&'a [u8]> {
    let mut head = [0u8; 4];
    input.read_exact(&mut head).ok()?;
    let request = buffer.get_mut(..u32::from_le_bytes(head) as usize)?;
    input.read_exact(request).ok()?;
    Some(request)
}

fn send(rt: &impl Print, answer: &[u8]) -> io::Result<()> {
    rt.write_all(&framed::length(answer.len()).to_le_bytes())?;
    rt.write_all(answer)
}

// Answers requests until none follows, or one isn't a request.
fn serve(
    rt: &impl Print,
    input: &mut impl Read,
    request: &mut [u8],
    out: &mut [u8],
) -> io::Result<()> {
    // A bound, because every loop must be seen to end, and nothing says how long the input is.
    for _ in 0..u64::MAX {
        let Some(request) = receive(input, request) else {
            break;
        };
        let Some(answer) = operations::respond(request, out).and_then(|n| out.get(..n)) else {
            break;
        };
        send(rt, answer)?;
    }
    Ok(())
}

fn main(rt: HostRuntime) -> io::Result<()> {
    // Room for a request, and for an answer.
    let mut request = [0; 262144];
    let mut answer = [0; 262144];
    serve(&rt, &mut rt.stdin(), &mut request, &mut answer)
}
