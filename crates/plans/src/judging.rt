// A word judged: the stage that it names, or why it names none.
ghost use Rattle.std.specs.Prelude.{◌≡◌, ◌==◌, IfOk};
ghost use Rattle.std.specs.List.{position};
ghost use Rattle.std.specs.Option.{ok_or};
ghost use Rattle.plans.specs.Plans.{stage_of};
ghost use Rattle.plans.specs.Stages.{CountFits, stage_named};

use crate::stages::Stage;
use crate::words::Word;
use refusals::Refusal;

// Where a word's name ends, unless it is the whole word.
fn first_colon(word: &[u8]) -> Option<usize>
    ensures { result ≡ position (λ b. b == 58) word.now }
{
    word.iter().position(|b| *b == b':')
}

impl<'a> Word<'a> {
    // The stage that a name names, which is the word's or what stands before its colon.
    fn named(&self, name: &[u8]) -> Result<Stage, Refusal>
        ensures value { result ≡ ok_or (stage_named name.now) (Refusal.UnknownName self.now.place) }
        ensures lawful { IfOk result CountFits }
    {
        Stage::named(name).ok_or(Refusal::UnknownName(self.place))
    }

    // The stage that the word names.
    pub fn stage(&self) -> Result<Stage, Refusal>
        ensures value { result ≡ stage_of self.now }
        ensures lawful { IfOk result CountFits }
    {
        let Some(colon) = first_colon(self.bytes) else {
            return self.named(self.bytes);
        };
        let stage = self.named(&self.bytes[..colon])?;
        stage
            .counted(&self.bytes[colon + 1..])
            .ok_or(Refusal::BadCount(self.place + colon))
    }
}
