// The plainest mixing box, and the network over it.
ghost use Rattle.std.specs.Prelude.{◌≡◌};
ghost use Rattle.std.proofs.Common.{rules};
ghost use Rattle.four_words.specs.Networks.{network};
ghost use Rattle.plain_box.specs.Plainest.{passed_on, plainest};

use crate::rounds::key_words;
use four_words::{BoxWords, FourWord, Mixed, MixingBox, Rounds};
use groups::{Group, Sum16};

// Its two words as they came. It leaves out z5 and z6.
#[derive(Clone, Copy)]
pub struct PlainBox;

impl MixingBox for PlainBox {
    ghost value = { λ _. passed_on };

    ghost within = { Prim.search rules };

    fn mix(&self, p: u16, q: u16, _words: BoxWords) -> Mixed {
        Mixed { t: p, s: q }
    }
}

// The network of some rounds under a key.
pub fn plainest(rounds: Rounds, key: &[u8; 16]) -> FourWord<Sum16, Sum16, PlainBox>
    ensures { network ⟦<Sum16 as Group>⟧ ⟦<Sum16 as Group>⟧ ⟦<PlainBox as MixingBox>⟧ result ≡ plainest rounds key.now }
{
    FourWord::new(PlainBox, key_words(rounds, key))
}
