// The lines of a report.
ghost use Rattle.refusals.specs.Refusals.{number_in};
ghost use Rattle.report.specs.Report.{cut_text, counters_text, slot_text, open_line, entry_line, entry_lines, refused_line};
ghost use Rattle.report.specs.Steps.{Prints};

use crate::words::Printer;
use index::Entry;
use journal::Cut;
use journal::answers::Scan;
use refusals::Refusal;

impl<'a> Printer<'a> {
    #[tactic(auto, unfolding(crate::specs::Report::cut_text, crate::specs::Report::field, crate::specs::Text::letters))]
    fn put_cut(&mut self, cut: Cut)
        ensures { Prints (cut_text cut) self.old self.new }
    {
        match cut {
            Cut::None => self.put(b" cut=none"),
            Cut::Incomplete(bytes) => self.put_field(b" cut=incomplete:", bytes),
            Cut::Damaged(bytes) => self.put_field(b" cut=damaged:", bytes),
        }
    }

    // Where the records end, what the index holds, and the counters that follow.
    fn put_counters(&mut self, found: Scan)
        ensures { Prints (counters_text found) self.old self.new }
    {
        self.put_field(b"open end=", found.end);
        self.put_field(b" records=", found.count as u64);
        self.put_field(b" dead=", found.dead);
        self.put_field(b" sender=", found.sender);
        self.put_field(b" target=", found.target);
        self.put_field(b" generation=", found.generation);
    }

    // The newest slot.
    fn put_slot(&mut self, found: Scan)
        ensures { Prints (slot_text found) self.old self.new }
    {
        self.put_field(b" active=", found.active as u64);
        self.put_field(b" stale=", u64::from(found.stale));
        self.put_field(b" reset=", u64::from(found.reset));
        self.put_field(b" watermark=", found.watermark);
        self.put_field(b" boundary=", found.boundary);
    }

    // The first line of an opened journal.
    pub(crate) fn put_open(&mut self, found: Scan)
        ensures { Prints (open_line found) self.old self.new }
    {
        self.put_counters(found);
        self.put_slot(found);
        self.put_cut(found.cut);
        self.end_line();
    }

    pub(crate) fn put_refused(&mut self, refusal: Refusal)
        ensures { Prints (refused_line (number_in refusal.reason) refusal.place) self.old self.new }
    {
        self.put_field(b"refused ", refusal.reason.number() as u64);
        self.put_field(b" at ", refusal.place);
        self.end_line();
    }

    fn put_entry(&mut self, entry: Entry)
        ensures { Prints (entry_line entry) self.old self.new }
    {
        self.put_field(b"entry seq=", entry.number);
        self.put_field(b" offset=", entry.offset);
        self.put_field(b" body=", entry.body);
        self.end_line();
    }

    // A line for each entry.
    #[tactic(auto, using(crate::proofs::Listed::lines_none, crate::proofs::Listed::lines_printed))]
    pub(crate) fn put_entries(&mut self, entries: &[Entry])
        ensures { Prints (entry_lines entries.now) self.old self.new }
    {
        for &entry in entries {
            self.put_entry(entry);
        }
    }
}
