// Text, printed piece by piece into a lent buffer. Each piece goes where the one before ended; what the buffer doesn't hold is left out.
ghost use Rattle.std.specs.Prelude.{◌≡◌, ◌++◌};
ghost use Rattle.report.specs.Steps.{printer_of, Prints};
ghost use Rattle.report.specs.Text.{decimal, letters};

use itoa::Buffer;

// The buffer, and where the next piece goes.
#[derive(Drop)]
pub(crate) struct Printer<'a> {
    pub(crate) out: &'a mut [u8],
    pub(crate) at: usize,
}

impl<'a> Printer<'a> {
    // Starts at the front.
    pub(crate) fn new(out: &'a mut [u8]) -> Printer<'a>
        ensures { result ≡ printer_of out.entry }
    {
        Printer { out, at: 0 }
    }

    // As much of the text as there is room for.
    #[tactic(auto, using(crate::proofs::Pieces::printed_part, crate::proofs::Pieces::printed_past))]
    pub(crate) fn put(&mut self, text: &[u8])
        ensures { Prints text.now self.old self.new }
    {
        let at = self.at;
        if at < self.out.len() {
            let n = text.len().min(self.out.len() - at);
            self.out[at..at + n].copy_from_slice(&text[..n]);
            self.at = at + n;
        }
    }

    // In decimal.
    #[tactic(auto, using(crate::proofs::Decimals::same_decimal))]
    pub(crate) fn put_number(&mut self, x: u64)
        ensures { Prints (decimal x) self.old self.new }
    {
        let mut digits = Buffer::new();
        self.put(digits.format(x).as_bytes());
    }

    // A name, and a number behind it.
    pub(crate) fn put_field(&mut self, name: &[u8], x: u64)
        ensures { Prints (name.now ++ decimal x) self.old self.new }
    {
        self.put(name);
        self.put_number(x);
    }

    #[tactic(auto, unfolding(crate::specs::Text::letters))]
    pub(crate) fn end_line(&mut self)
        ensures { Prints (letters "\n") self.old self.new }
    {
        self.put(b"\n");
    }
}
