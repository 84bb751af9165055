// What the layers below answer to writing, as numbers and bytes for a host.
ghost use Rattle.std.specs.Prelude.{◌≡◌};
ghost use Rattle.host.specs.Host.{found_for, message_for};
ghost use Rattle.host.specs.Writing.{record_wrote, sealed_as, fresh_of, wrote_for, sealed_for, fresh_for, image_for};

use crate::{Found, Fresh, Image, Message, Sealed, Slots, Wrote};
use refusals::Refusal;

pub(crate) fn wrote(answer: Result<usize, Refusal>) -> Wrote
    ensures { result ≡ record_wrote answer }
{
    match answer {
        Ok(length) => Wrote {
            length: length as u64,
            ..Wrote::default()
        },
        Err(refusal) => Wrote::from(refusal),
    }
}

pub(crate) fn sealed_as(answer: Result<(), Refusal>) -> Sealed
    ensures { result ≡ sealed_as answer }
{
    match answer {
        Ok(()) => Sealed::default(),
        Err(refusal) => Sealed::from(refusal),
    }
}

pub(crate) fn fresh_of(next: Result<u64, Refusal>, images: [[u8; 52]; 2]) -> Fresh
    ensures { result ≡ fresh_of next images }
{
    let slots = Slots::from(images);
    match next {
        Ok(next) => Fresh {
            next,
            slots,
            ..Fresh::default()
        },
        Err(refusal) => Fresh {
            slots,
            ..Fresh::from(refusal)
        },
    }
}

// ---- a refusal alone: its number and place, and zeros

impl From<Refusal> for Found {
    ghost from_gives = { λ e f. f ≡ found_for e };

    fn from(refusal: Refusal) -> Found {
        Found {
            number: refusal.reason.number() as u64,
            place: refusal.place,
            ..Found::default()
        }
    }
}

impl From<Refusal> for Wrote {
    ghost from_gives = { λ e w. w ≡ wrote_for e };

    fn from(refusal: Refusal) -> Wrote {
        Wrote {
            number: refusal.reason.number() as u64,
            place: refusal.place,
            ..Wrote::default()
        }
    }
}

impl From<Refusal> for Message {
    ghost from_gives = { λ e m. m ≡ message_for e };

    fn from(refusal: Refusal) -> Message {
        Message {
            number: refusal.reason.number() as u64,
            place: refusal.place,
            ..Message::default()
        }
    }
}

impl From<Refusal> for Sealed {
    ghost from_gives = { λ e s. s ≡ sealed_for e };

    fn from(refusal: Refusal) -> Sealed {
        Sealed {
            number: refusal.reason.number() as u64,
            place: refusal.place,
        }
    }
}

impl From<Refusal> for Fresh {
    ghost from_gives = { λ e f. f ≡ fresh_for e };

    fn from(refusal: Refusal) -> Fresh {
        Fresh {
            number: refusal.reason.number() as u64,
            place: refusal.place,
            ..Fresh::default()
        }
    }
}

impl From<Refusal> for Image {
    ghost from_gives = { λ e i. i ≡ image_for e };

    fn from(refusal: Refusal) -> Image {
        Image {
            number: refusal.reason.number() as u64,
            place: refusal.place,
            ..Image::default()
        }
    }
}
