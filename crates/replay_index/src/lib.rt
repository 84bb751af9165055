// The operations of the oracle's protocol (oracle/README.md) that read an index or a journal: each takes the request apart, calls the port, and
// writes all that it left. The result is the answer's length, or nothing for a request that isn't one or whose answer the output is too short
// for.
#![tactic(auto)]

mod filing;
mod indexes;
mod scans;

use fields::Reader;

// Answers the request, if its operation is one of these.
pub fn respond(request: &[u8], out: &mut [u8]) -> Option<usize> {
    let mut from = Reader::new(request);
    match from.number::<u8>()? {
        11 => scans::scan(from, out),
        12 => scans::reread(from, out),
        16 => filing::insert(from, out),
        17 => filing::lookup(from, out),
        _ => None,
    }
}
