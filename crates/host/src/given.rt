// What a host hands in, as the layers below take it, and what they answer, as it gets it.
ghost use Rattle.std.specs.Prelude.{◌≡◌, true, false, MatchResult};
ghost use Rattle.refusals.specs.declared.Reason.TheVariants.{Unknown};
ghost use Rattle.host.specs.Host.{known, rule_by, made_of, code_of};
ghost use Rattle.host.specs.Writing.{is_record_kind, kind_by, letters_by, code_by, header_by, is_yes_no, slot_by, images_by, slots_of};

use crate::{Code, Counters, Made, Slots};
use journal::Rule;
use prefix::{Header, Slot};
use record::{Kind, MsgType};
use refusals::Reason;

// A rule by its kind: 1 Tail, with records; 2 Anywhere; 3 Salvage; there is no other.
#[tactic(auto, unfolding(crate::specs::Host::known, crate::specs::Host::rule_by))]
pub(crate) fn rule_by(kind: u64, records: u64) -> Result<Rule, Reason>
    ensures { MatchResult result (λ r. (known kind ≡ true) × (r ≡ rule_by kind records)) (λ e. (known kind ≡ false) × (e ≡ Unknown)) }
{
    match kind {
        1 => Ok(Rule::Tail { records }),
        2 => Ok(Rule::Anywhere),
        3 => Ok(Rule::Salvage),
        _ => Err(Reason::Unknown),
    }
}

// The kind of a record: 1 plain, 5 with the next sender; there is no other.
#[tactic(auto, unfolding(crate::specs::Writing::is_record_kind, crate::specs::Writing::kind_by))]
pub(crate) fn kind_by(kind: u64, sender: u64) -> Result<Kind, Reason>
    ensures { MatchResult result (λ k. (is_record_kind kind ≡ true) × (k ≡ kind_by kind sender)) (λ e. (is_record_kind kind ≡ false) × (e ≡ Unknown)) }
{
    match kind {
        1 => Ok(Kind::Plain),
        5 => Ok(Kind::Counter { sender }),
        _ => Err(Reason::Unknown),
    }
}

// The letters of a code; none where there are more than eight, so that the code is refused.
#[tactic(auto, using(crate::proofs::Letters::too_many, crate::proofs::Letters::up_to_eight))]
fn letters_by(letters: u64) -> u8
    ensures { result ≡ letters_by letters }
{
    if letters <= 8 { letters as u8 } else { 0 }
}

impl From<Code> for MsgType {
    ghost from_gives = { λ c r. r ≡ code_by c };

    #[tactic(auto, unfolding(crate::specs::Writing::code_by))]
    fn from(code: Code) -> MsgType {
        let bytes = code.bytes;
        MsgType {
            bytes,
            len: letters_by(code.letters),
        }
    }
}

impl From<MsgType> for Code {
    ghost from_gives = { λ m r. r ≡ code_of m };

    fn from(code: MsgType) -> Code {
        let bytes = code.bytes;
        Code {
            letters: code.len as u64,
            bytes,
        }
    }
}

// The most nanoseconds that a header holds stand for more, so that they are refused.
impl From<Made> for Header {
    ghost from_gives = { λ m r. r ≡ header_by m };

    #[tactic(auto, unfolding(crate::specs::Writing::header_by, crate::specs::Writing::nanoseconds_by))]
    fn from(made: Made) -> Header {
        Header {
            seconds: made.seconds,
            nanoseconds: u32::try_from(made.nanoseconds).unwrap_or(u32::MAX),
            sender: made.sender,
            target: made.target,
        }
    }
}

impl From<Header> for Made {
    ghost from_gives = { λ h r. r ≡ made_of h };

    fn from(header: Header) -> Made {
        Made {
            seconds: header.seconds,
            nanoseconds: header.nanoseconds as u64,
            sender: header.sender,
            target: header.target,
        }
    }
}

// A reset is owed, 1, or not, 0; there is nothing else.
impl TryFrom<Counters> for Slot {
    type Error = Reason;

    ghost try_from_gives = { λ c r. MatchResult r (λ s. (is_yes_no c.reset ≡ true) × (s ≡ slot_by c)) (λ e. (is_yes_no c.reset ≡ false) × (e ≡ Unknown)) };

    fn try_from(counters: Counters) -> Result<Slot, Reason> {
        let reset = match counters.reset {
            0 => false,
            1 => true,
            _ => return Err(Reason::Unknown),
        };
        Ok(Slot {
            generation: counters.generation,
            sender: counters.sender,
            target: counters.target,
            end: counters.end,
            watermark: counters.watermark,
            reset,
        })
    }
}

impl From<Slots> for [[u8; 52]; 2] {
    ghost from_gives = { λ s r. r ≡ images_by s };

    fn from(slots: Slots) -> [[u8; 52]; 2] {
        let Slots { zero, one } = slots;
        [zero, one]
    }
}

impl From<[[u8; 52]; 2]> for Slots {
    ghost from_gives = { λ images r. r ≡ slots_of images };

    fn from(images: [[u8; 52]; 2]) -> Slots {
        let [zero, one] = images;
        Slots { zero, one }
    }
}
