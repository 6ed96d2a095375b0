// Known answers tried on the piles that they name.
ghost use Rattle.trials.specs.Verdicts.{tried_on};

use crate::judging::judge;
use known_answers::examiner::Examiner;
use known_answers::tally::Verdict;
use known_answers::vector::Vector;
use piles::Pile;

pub struct Piles;

impl Examiner for Piles {
    ghost verdict = { tried_on };

    fn examine(vector: Vector<'_>) -> Verdict {
        let Vector {
            description,
            key,
            text,
            sealed,
        } = vector;
        let mut pile = Pile::fitted(description, key.into_bytes().as_mut_slice())?;
        judge(&mut pile, text, sealed)
    }
}
