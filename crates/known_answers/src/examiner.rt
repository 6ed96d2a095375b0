// Who says how a known answer comes out.
ghost use Rattle.std.specs.Prelude.{◌≡◌};
ghost use Rattle.known_answers.specs.Tally.{Verdict};
ghost use Rattle.known_answers.specs.Vector.{Reading, contents};

use crate::tally::Verdict;
use crate::vector::Vector;

// A way to try known answers. Every line that can be read has a verdict.
pub trait Examiner {
    ghost verdict: { Reading → Verdict };

    fn examine(vector: Vector<'_>) -> Verdict
        ensures { result ≡ verdict (contents vector.entry) };
}
