// The layers of a pile, one for each stage.
ghost use Rattle.std.specs.Prelude.{◌≡◌, ℕ, ◌<◌, get_or, length};
ghost use Rattle.ciphers.specs.Maps.{SameMap};
ghost use Rattle.plans.specs.Stages.{key_length};
ghost use Rattle.piles.specs.Keyed.{sealed_by};
ghost use Rattle.piles.specs.internal.Layers.{layered};

use ciphers::{Cipher, Four, Undo};
use plans::Stage;

// A stage's cipher with its key, or no cipher.
#[derive(Drop)]
pub(crate) enum Layer {
    Empty,
    Des(des::Des),
    TripleDes(des::TripleDes),
    Idea(idea::Idea),
    Xtea(xtea::Xtea),
    Wxor(whitening::Wxor),
    Wadd(whitening::Wadd),
}

// The bytes as an array. It also says that they are bytes, which its callers' proofs need.
fn sized<const N: usize>(bytes: &[u8]) -> &[u8; N]
    requires { length bytes.now ≡ N }
    ensures value { result.now ≡ bytes.now }
    ensures fits { (i : ℕ) → get_or bytes.now i 0 < 256 }
{
    bytes.as_array().unwrap()
}

impl Layer {
    // The cipher of a stage under its key. Not inlined, since a function pays at entry for the room of its locals, and an
    // empty layer needs none of them.
    #[inline(never)]
    pub(crate) fn new(stage: Stage, key: &[u8]) -> Layer
        requires { length key.now ≡ key_length stage }
        ensures map { SameMap (layered result) (sealed_by stage key.now) }
        ensures fits { (i : ℕ) → get_or key.now i 0 < 256 }
    {
        match stage {
            Stage::Des => Layer::Des(des::Des::new(sized(key))),
            Stage::Ede2 => Layer::TripleDes(des::ede2(sized(key))),
            Stage::Ede3 => Layer::TripleDes(des::ede3(sized(key))),
            Stage::Idea(rounds) => Layer::Idea(idea::Idea::new(sized(key), rounds)),
            Stage::Xtea(cycles) => Layer::Xtea(xtea::Xtea::new(sized(key), cycles)),
            Stage::Wxor => Layer::Wxor(whitening::Wxor::xoring(sized(key))),
            Stage::Wadd => Layer::Wadd(whitening::Wadd::adding(sized(key))),
        }
    }
}

impl Cipher for Layer {
    ghost map = { layered };

    // Inlined, so that each place of a pile has a choice of its own, which is always the same one.
    #[inline(always)]
    fn seal(&self, block: u64) -> u64 {
        match self {
            Layer::Empty => block,
            Layer::Des(cipher) => cipher.seal(block),
            Layer::TripleDes(cipher) => cipher.seal(block),
            Layer::Idea(cipher) => cipher.seal(block),
            Layer::Xtea(cipher) => cipher.seal(block),
            Layer::Wxor(cipher) => cipher.seal(block),
            Layer::Wadd(cipher) => cipher.seal(block),
        }
    }

    fn seal_four(&self, blocks: Four<u64>) -> Four<u64> {
        match self {
            Layer::Empty => blocks,
            Layer::Des(cipher) => cipher.seal_four(blocks),
            Layer::TripleDes(cipher) => cipher.seal_four(blocks),
            Layer::Idea(cipher) => cipher.seal_four(blocks),
            Layer::Xtea(cipher) => cipher.seal_four(blocks),
            Layer::Wxor(cipher) => cipher.seal_four(blocks),
            Layer::Wadd(cipher) => cipher.seal_four(blocks),
        }
    }

    #[tactic(auto, using(crate::proofs::Turning::turned))]
    fn turn(&mut self) {
        match self {
            Layer::Empty => {}
            Layer::Des(cipher) => cipher.turn(),
            Layer::TripleDes(cipher) => cipher.turn(),
            Layer::Idea(cipher) => cipher.turn(),
            Layer::Xtea(cipher) => cipher.turn(),
            Layer::Wxor(cipher) => cipher.turn(),
            Layer::Wadd(cipher) => cipher.turn(),
        }
    }
}

impl Undo for Layer {
    fn undo(&self, block: u64) -> u64 {
        match self {
            Layer::Empty => block,
            Layer::Des(cipher) => cipher.undo(block),
            Layer::TripleDes(cipher) => cipher.undo(block),
            Layer::Idea(cipher) => cipher.undo(block),
            Layer::Xtea(cipher) => cipher.undo(block),
            Layer::Wxor(cipher) => cipher.undo(block),
            Layer::Wadd(cipher) => cipher.undo(block),
        }
    }
}
