// How many known answers came out, and how.
ghost use Rattle.std.specs.Prelude.{◌≡◌};
ghost use Rattle.refusals.specs.Notices.{notice_of};
ghost use Rattle.known_answers.specs.Tally.{none, counted};

use refusals::{Notice, Refusal};
use thiserror::Error;

// How a known answer failed to come out.
#[derive(Clone, Copy, Debug, PartialEq, Eq, Error)]
pub enum Fault {
    // The block that came in place of the known one.
    #[error("differs {0:016X}")]
    Differs(u64),
    // The description and the key fit no pile.
    #[error("refused {number}", number = .0.number)]
    Refused(Notice),
    #[error("unreadable")]
    Unreadable,
}

impl From<Refusal> for Fault {
    ghost use Rattle.known_answers.specs.declared.tally.Fault.TheVariants.{Refused};

    ghost from_gives = { λ refusal fault. fault ≡ Refused (notice_of refusal) };

    fn from(refusal: Refusal) -> Fault {
        Fault::Refused(refusal.into())
    }
}

// How a known answer came out.
pub type Verdict = Result<(), Fault>;

// The verdicts of each kind; a total stays at the largest `usize` once it is there.
#[derive(Clone, Copy, Default)]
pub struct Tally {
    pub ok: usize,
    pub differs: usize,
    pub refused: usize,
    pub unreadable: usize,
}

impl Tally {
    pub fn new() -> Tally
        ensures { result ≡ none }
    {
        Tally::default()
    }

    pub fn count(&mut self, verdict: &Verdict)
        ensures { self.new ≡ counted verdict.now self.old }
    {
        match verdict {
            Ok(()) => self.ok = self.ok.saturating_add(1),
            Err(Fault::Differs(_)) => self.differs = self.differs.saturating_add(1),
            Err(Fault::Refused(_)) => self.refused = self.refused.saturating_add(1),
            Err(Fault::Unreadable) => self.unreadable = self.unreadable.saturating_add(1),
        }
    }
}
