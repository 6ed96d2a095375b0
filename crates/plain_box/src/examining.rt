// Known answers tried on networks of the plain box.
ghost use Rattle.plain_box.specs.Verdicts.{tried_on};

use crate::plain::plainest;
use crate::rounds::rounds_named;
use known_answers::examiner::Examiner;
use known_answers::tally::{Fault, Verdict};
use known_answers::vector::Vector;
use trials::judge;

pub struct PlainBoxes;

impl Examiner for PlainBoxes {
    ghost verdict = { tried_on };

    // Any other description, or a key of other than sixteen bytes, is not readable.
    fn examine(vector: Vector<'_>) -> Verdict {
        let rounds = rounds_named(vector.description).ok_or(Fault::Unreadable)?;
        let key = vector.key.as_slice().as_array().ok_or(Fault::Unreadable)?;
        judge(&mut plainest(rounds, key), vector.text, vector.sealed)
    }
}
