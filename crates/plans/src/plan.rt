// What a description is read as: one to four stages.
ghost use Rattle.std.specs.Prelude.{◌≡◌, ◌≤◌, ◌↔◌, ℕ, List, [], ◌∷◌, length, true, Ok};
ghost use Rattle.std.specs.List.{All, sum_by};
ghost use Rattle.plans.specs.Plans.{plan_of, with_word, with_words};
ghost use Rattle.plans.specs.Stages.{CountFits, key_length};
ghost use Rattle.plans.specs.Written.{Apart, Lawful, described, spaced};

use crate::stages::Stage;
use crate::words::{Word, Words};
use arrayvec::ArrayVec;
use refusals::Refusal;
use std::marker::Model;

// To a contract a plan is the list of its stages.
#[derive(Drop)]
pub struct Plan {
    stages: ArrayVec<Stage, 4>,
}

impl Model for Plan {
    ghost use Rattle.std.specs.Prelude.{List, ◌≤◌, length};
    ghost use Rattle.std.specs.List.{All};
    ghost use Rattle.plans.specs.declared.stages.Stage.{Stage};
    ghost use Rattle.plans.specs.Stages.{CountFits};

    ghost Value = { List Stage };

    ghost view = { λ p. p.stages.items };

    ghost invariant = { λ p. (1 ≤ length p.stages.items) × All CountFits p.stages.items };
}

impl Plan {
    // The plan of one stage.
    fn new(stage: Stage) -> Plan
        requires { CountFits stage }
        ensures { result ≡ stage ∷ [] }
    {
        let mut stages = ArrayVec::new();
        stages.push(stage);
        Plan { stages }
    }

    // The plan with the stage of one word more, where there is room for it.
    fn with_word(mut self, word: &Word<'_>) -> Result<Plan, Refusal>
        ensures { result ≡ with_word self word.now }
    {
        if self.stages.is_full() {
            return Err(Refusal::FifthWord(word.place));
        }
        self.stages.push(word.stage()?);
        Ok(self)
    }

    // The stages from left to right.
    pub fn stages(&self) -> &[Stage]
        ensures value { result.now ≡ self.now }
        ensures some { 1 ≤ length result.now }
        ensures few { length result.now ≤ 4 }
        ensures lawful { All CountFits result.now }
    {
        self.stages.as_slice()
    }

    // How many bytes of a key the stages take together.
    pub fn key_length(&self) -> usize
        ensures { result ≡ sum_by key_length self.now }
    {
        self.stages().iter().map(|stage| stage.key_length()).sum()
    }

    // Whether names and counts agree, stage by stage.
    #[tactic(auto, using(crate::proofs::Agreeing::one_list))]
    pub fn same(&self, other: &Plan) -> bool
        ensures { (result ≡ true) ↔ (self.now ≡ other.now) }
    {
        self.stages() == other.stages()
    }
}

// The plan with the stages of some words more.
fn with_words(mut plan: Plan, words: Words<'_>) -> Result<Plan, Refusal>
    ensures { result ≡ with_words plan words.entry }
{
    for word in words {
        plan = plan.with_word(&word)?;
    }
    Ok(plan)
}

// The plan that a description's words name, one after another.
fn plan_of(description: &[u8]) -> Result<Plan, Refusal>
    ensures { result ≡ plan_of description.now }
{
    if description.len() > 64 {
        return Err(Refusal::DescriptionTooLong);
    }
    let mut words = Words::new(description);
    let first = words.next().ok_or(Refusal::NoWord(description.len()))?;
    with_words(Plan::new(first.stage()?), words)
}

// The plan that a description names. What a plan is written as is read as that plan, whatever spaces stand before its
// stages, between them and behind them. Not inlined, since whoever makes a pile of the plan then clears and copies the pile's
// room less often.
#[tactic(auto, using(crate::proofs::Written::written, crate::proofs::Written::written_apart))]
#[inline(never)]
pub fn read(description: &[u8]) -> Result<Plan, Refusal>
    ensures value { result ≡ plan_of description.now }
    ensures written { (stages : List Stage) → Lawful stages → description.now ≡ described stages → result ≡ Ok stages }
    ensures spaced { (stages : List Stage) (spaces : ℕ → ℕ) → Lawful stages → Apart spaces stages → length description.now ≤ 64 → description.now ≡ spaced spaces 0 stages → result ≡ Ok stages }
{
    plan_of(description)
}
