// IDEA's mixing box: two products and two sums.
ghost use Rattle.idea.specs.Mixing.{mixed};
ghost use Rattle.idea.specs.internal.Fitting.{mixed_fits};

use four_words::{BoxWords, Mixed, MixingBox};
use groups::{Group, Sum16};
use products::Product16;

#[derive(Clone, Copy)]
pub(crate) struct IdeaBox;

impl MixingBox for IdeaBox {
    ghost value = { λ _. mixed };

    ghost within = { λ _. mixed_fits };

    fn mix(&self, p: u16, q: u16, words: BoxWords) -> Mixed {
        let a = Product16::join(p, words.z5);
        let b = Sum16::join(q, a);
        let t = Product16::join(b, words.z6);
        Mixed {
            t,
            s: Sum16::join(a, t),
        }
    }
}
