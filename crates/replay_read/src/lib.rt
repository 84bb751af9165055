// The operations of the oracle's protocol (oracle/README.md) on fields, and the check program's: each takes the request apart, calls the
// port, and writes all that it left. The result is the answer's length, or nothing for a request that isn't one.
#![tactic(auto)]

mod cursors;

use fields::Reader;

// Answers the request, if its operation is one of these.
pub fn respond(request: &[u8], out: &mut [u8]) -> Option<usize> {
    let mut from = Reader::new(request);
    match from.number::<u8>()? {
        13 => check(from, out),
        14 => cursors::take(from, out),
        15 => cursors::put(from, out),
        _ => None,
    }
}

// The text stands behind the answer's head, 13 bytes, and is written there.
fn check(from: Reader, out: &mut [u8]) -> Option<usize> {
    let input = framed::last_run(from)?;
    let n = report::report(input, out.get_mut(13..)?);
    let mut to = framed::begin(out, None);
    framed::put_length(&mut to, n);
    Some(13 + n)
}
