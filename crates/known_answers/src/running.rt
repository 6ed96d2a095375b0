// The lines of an input tried one after another.
ghost use Rattle.std.specs.Prelude.{◌≡◌};
ghost use Rattle.std.specs.Iterator.{item_count};
ghost use Rattle.known_answers.specs.Tally.{none};
ghost use Rattle.known_answers.specs.Runs.{Steps, verdict_of, verdicts_of};

use crate::examiner::Examiner;
use crate::lines::Lines;
use crate::tally::{Fault, Tally, Verdict};
use crate::vector::read;
use std::marker::{Model, PhantomData};

// The verdicts on the lines that are still to be tried, and the totals so far.
#[derive(Drop)]
pub struct Run<'a, E: Examiner> {
    lines: Lines<'a>,
    tally: Tally,
    examiner: PhantomData<E>,
}

impl<'a, E: Examiner> Model for Run<'a, E> {
    ghost use Rattle.std.specs.Prelude.{map};
    ghost use Rattle.known_answers.specs.Runs.{Progress, verdict_of};

    ghost Value = { Progress };

    ghost view = { λ r. record { left = map (verdict_of E.Examiner.verdict) r.lines; tally = r.tally } };
}

impl<'a, E: Examiner> Run<'a, E> {
    pub fn new(input: &'a [u8]) -> Self
        ensures verdicts { result.left ≡ verdicts_of E.verdict input.now }
        ensures totals { result.tally ≡ none }
    {
        Run {
            lines: Lines::new(input),
            tally: Tally::new(),
            examiner: PhantomData,
        }
    }

    // The verdict on a line.
    fn verdict_on(line: &[u8]) -> Verdict
        ensures { result ≡ verdict_of E.verdict line.now }
    {
        E::examine(read(line).ok_or(Fault::Unreadable)?)
    }

    // The totals of the verdicts so far.
    pub fn tally(&self) -> Tally
        ensures { result ≡ self.now.tally }
    {
        self.tally
    }
}

impl<'a, E: Examiner> Iterator for Run<'a, E> {
    type Item = Verdict;

    ghost next_gives = { Steps };

    ghost remaining = { item_count (λ r. r.left) };

    // The verdict on the next line, which is counted.
    fn next(&mut self) -> Option<Verdict> {
        let verdict = Self::verdict_on(self.lines.next()?);
        self.tally.count(&verdict);
        Some(verdict)
    }
}
