// A pile: up to four ciphers one after another, under one key.
ghost use Rattle.std.specs.Prelude.{◌≡◌, ℕ, length, replicate};
ghost use Rattle.ciphers.specs.Maps.{SameMap};
ghost use Rattle.piles.specs.Fitting.{Answers, answer, fitting, map_after};
ghost use Rattle.piles.specs.internal.Layers.{sealing};

use crate::keys::{Key, Wiped};
use crate::layers::Layer;
use crate::supply::{Layers, layers};
use ciphers::{Cipher, Four, Pair, Undo};
use plans::read;
use refusals::Refusal;

#[derive(Drop)]
pub struct Pile {
    layers: Layers,
}

impl Pile {
    // A pile that keeps every block.
    pub fn new() -> Pile
        ensures { (b : ℕ) → ⟦<Pile as Cipher>⟧.map result b ≡ b }
    {
        Pile {
            layers: Pair::new(
                Pair::new(Layer::Empty, Layer::Empty),
                Pair::new(Layer::Empty, Layer::Empty),
            ),
        }
    }

    // Reads a description, takes over a key, and fills the pile with the stages from left to right, each under its bytes
    // of the key, in place of what it held. The key's bytes are zeros afterwards.
    #[tactic(auto, using(crate::proofs::Kept::kept))]
    pub fn fit(&mut self, description: &[u8], key: Key<'_>) -> Result<(), Refusal>
        ensures answer { result ≡ answer (fitting description.now key.entry.0.now) }
        ensures map { SameMap (⟦<Pile as Cipher>⟧.map self.new) (map_after (fitting description.now key.entry.0.now) key.entry.0.now (⟦<Pile as Cipher>⟧.map self.old)) }
        ensures blank { key.exit.0.now ≡ replicate (length key.entry.0.now) 0 }
    {
        let Key(bytes) = key;
        *self = Pile::fitted(description, bytes)?;
        Ok(())
    }

    // A new pile that a description and the key in some bytes fit. The bytes are zeros afterwards.
    pub fn fitted(description: &[u8], bytes: &mut [u8]) -> Result<Pile, Refusal>
        ensures pile { Answers ⟦<Pile as Cipher>⟧.map (fitting description.now bytes.old) bytes.old result }
        ensures blank { bytes.new ≡ replicate (length bytes.old) 0 }
    {
        let key = Wiped(bytes);
        let plan = read(description)?;
        if key.0.len() != plan.key_length() {
            return Err(Refusal::KeyLength);
        }
        Ok(Pile {
            layers: layers(plan.stages(), key.0),
        })
    }
}

impl Cipher for Pile {
    ghost map = { sealing };

    fn seal(&self, block: u64) -> u64 {
        self.layers.seal(block)
    }

    fn seal_four(&self, blocks: Four<u64>) -> Four<u64> {
        self.layers.seal_four(blocks)
    }

    fn turn(&mut self) {
        self.layers.turn();
    }
}

impl Undo for Pile {
    fn undo(&self, block: u64) -> u64 {
        self.layers.undo(block)
    }
}
