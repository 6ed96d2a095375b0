// What a caller is told of a refusal.
ghost use Rattle.std.specs.Prelude.{◌≡◌, Some};
ghost use Rattle.refusals.specs.Notices.{notice_of, notice_text};

use crate::reasons::Refusal;
use std::fmt;

// A number, and a place in what the caller brought. It is a number because that is what a caller is told; code speaks of
// the cases.
#[derive(Clone, Copy, Debug, PartialEq, Eq)]
pub struct Notice {
    pub number: u64,
    pub place: usize,
}

impl From<Refusal> for Notice {
    ghost from_gives = { λ refusal notice. notice ≡ notice_of refusal };

    fn from(refusal: Refusal) -> Notice {
        let (number, place) = match refusal {
            Refusal::DescriptionTooLong => (1, 64),
            Refusal::NoWord(length) => (2, length),
            Refusal::UnknownName(place) => (3, place),
            Refusal::BadCount(place) => (4, place),
            Refusal::FifthWord(place) => (5, place),
            Refusal::KeyLength => (6, 0),
            Refusal::StartLength => (7, 0),
            Refusal::RunTooLong | Refusal::PlainTooLong => (8, 0),
            Refusal::RunNotWhole => (9, 0),
            Refusal::NoChainBlock => (10, 0),
            Refusal::FieldTooLarge => (11, 0),
            Refusal::FileLength => (12, 0),
            Refusal::FileForm => (13, 0),
            Refusal::BadPadding => (14, 0),
            Refusal::OutputTooShort => (15, 0),
        };
        Notice { number, place }
    }
}

impl fmt::Display for Notice {
    ghost output = { λ notice. Some (notice_text notice) };

    fn fmt<W: fmt::Write>(&self, f: &mut fmt::Formatter<W>) -> fmt::Result {
        let Notice { number, place } = *self;
        write!(f, "{number} at {place}")
    }
}
