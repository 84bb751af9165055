// The report of the check program: what a request asks for, and the text that answers it.
//
//     request   a kind byte, what the kind asks for, and the journal. 1, Tail: N and the body limit. 2, Anywhere, and 3, Salvage: the
//               body limit. Each is a u64
//     text      `refused N at P` alone; or `open end=.. cut=..`, what the scan answers, and a line for each entry of its index
//
//     let mut out = [0u8; 90112];
//     let n = report::report(input, &mut out);
//
// `out[..n]` is then the whole text: no text is longer. In a shorter buffer stands as much of it as it holds.
// 28, a request that is unknown or short, comes before 29, a journal above 65,536 bytes, and both before what the scan refuses.
// The definitions are in specs/: Text, Request, Report, in this order.
#![tactic(auto)]

ghost use Rattle.std.specs.Prelude.{◌≡◌, min, length, replicate};
ghost use Rattle.index.specs.Insert.{none};
ghost use Rattle.journal.specs.Scan.{scan_of, index_after};
ghost use Rattle.report.specs.Report.{scan_text, report_of};
ghost use Rattle.report.specs.Steps.{Prints};
ghost use Rattle.report.specs.Text.{over};

use crate::requests::Request;
use crate::words::Printer;
use index::Entry;

mod lines;
mod requests;
mod words;

impl<'a> Printer<'a> {
    // A scan into an index of 1,024 entries.
    fn put_scan(&mut self, request: Request)
        ensures { Prints (scan_text (scan_of request.entry.limit request.entry.rule 1024 request.entry.journal.now) (index_after request.entry.limit (replicate 1024 none) request.entry.journal.now)) self.old self.new }
    {
        let mut entries = [Entry::default(); 1024];
        match journal::scan(request.journal, request.rule, request.limit, &mut entries) {
            Ok(found) => {
                self.put_open(found);
                self.put_entries(&entries[..found.count.min(1024)]);
            }
            Err(refusal) => self.put_refused(refusal),
        }
    }

    // The answer to a request: what its scan comes to, or why it is refused.
    fn put_report(&mut self, input: &[u8])
        ensures { Prints (report_of input.now) self.old self.new }
    {
        match Request::parse(input) {
            Ok(request) => self.put_scan(request),
            Err(reason) => self.put_refused(reason.into()),
        }
    }
}

// The text that answers a request, at the start of the buffer: how many bytes of it stand there. `over` says what the buffer holds.
pub fn report(input: &[u8], out: &mut [u8]) -> usize
    ensures value { result ≡ min (length (report_of input.now)) (length out.old) }
    ensures out_after { out.new ≡ over (report_of input.now) out.old }
{
    let mut text = Printer::new(out);
    text.put_report(input);
    text.at
}
