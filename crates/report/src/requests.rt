// A request, taken apart: the rule and the body limit that it asks for, and the journal behind them.
ghost use Rattle.std.specs.Prelude.{◌≡◌, true, MatchOption, MatchResult};
ghost use Rattle.report.specs.Request.{unknown_or_short};
ghost use Rattle.report.specs.Steps.{Asks, Parts, Refuses};

use fields::Reader;
use journal::Rule;
use refusals::Reason;

#[derive(Clone, Copy)]
pub(crate) struct Request<'a> {
    pub(crate) rule: Rule,
    pub(crate) limit: u64,
    pub(crate) journal: &'a [u8],
}

impl<'a> Request<'a> {
    // 28, a kind that is unknown or an input shorter than its kind asks, comes before 29, a journal above 65,536 bytes.
    #[tactic(auto, using(crate::proofs::RequestCases::asks, crate::proofs::RequestCases::unknown, crate::proofs::RequestCases::long))]
    pub(crate) fn parse(input: &'a [u8]) -> Result<Request<'a>, Reason>
        ensures { MatchResult result (λ r. Asks input.now r) (λ e. Refuses input.now e) }
    {
        let request = Request::parts(input).ok_or(Reason::Unknown)?;
        if 65536 < request.journal.len() {
            return Err(Reason::LongJournal);
        }
        Ok(request)
    }

    // The kind is the first byte: 1, Tail, has N and the body limit behind it; 2, Anywhere, and 3, Salvage, the body limit.
    fn parts(input: &'a [u8]) -> Option<Request<'a>>
        ensures { MatchOption result (unknown_or_short input.now ≡ true) (λ r. Parts input.now r) }
    {
        let mut from = Reader::new(input);
        let rule = match from.number::<u8>()? {
            1 => Rule::Tail {
                records: from.number()?,
            },
            2 => Rule::Anywhere,
            3 => Rule::Salvage,
            _ => return None,
        };
        let limit = from.number()?;
        Some(Request {
            rule,
            limit,
            journal: from.rest(),
        })
    }
}
