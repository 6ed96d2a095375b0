// One cipher after another.
ghost use Rattle.std.specs.Prelude.{◌≡◌, ℕ, false, if◌then◌else◌, not};
ghost use Rattle.ciphers.specs.internal.Sealing.{composed};

use crate::interface::Cipher;
use crate::undoing::Undo;
use networks::Four;

// The first cipher and then the second, or the other way round once the pair is turned. A turn is in place, so the order
// is a value and no type.
#[derive(Drop)]
pub struct Pair<A, B> {
    first: A,
    second: B,
    reversed: bool,
}

impl<A: Cipher, B: Cipher> Pair<A, B> {
    pub fn new(first: A, second: B) -> Self
        ensures first { result.first ≡ first }
        ensures second { result.second ≡ second }
        ensures order { result.reversed ≡ false }
        ensures map { (b : ℕ) → ⟦<Self as Cipher>⟧.map result b ≡ B.Cipher.map second (A.Cipher.map first b) }
    {
        Pair {
            first,
            second,
            reversed: false,
        }
    }
}

impl<A: Cipher, B: Cipher> Cipher for Pair<A, B> {
    ghost map = { λ p. composed p.reversed (A.Cipher.map p.first) (B.Cipher.map p.second) };

    // both are turned, and their order is reversed
    ghost turns = { λ old new. A.Cipher.turns old.first new.first × B.Cipher.turns old.second new.second × (new.reversed ≡ not old.reversed) };

    fn seal(&self, block: u64) -> u64
        ensures map { result ≡ ⟦<Self as Cipher>⟧.map self.now block }
        ensures order { result ≡ (if self.now.reversed
            then A.Cipher.map self.now.first (B.Cipher.map self.now.second block)
            else B.Cipher.map self.now.second (A.Cipher.map self.now.first block)) }
    {
        if self.reversed {
            self.first.seal(self.second.seal(block))
        } else {
            self.second.seal(self.first.seal(block))
        }
    }

    fn seal_four(&self, blocks: Four<u64>) -> Four<u64> {
        if self.reversed {
            self.first.seal_four(self.second.seal_four(blocks))
        } else {
            self.second.seal_four(self.first.seal_four(blocks))
        }
    }

    fn turn(&mut self) {
        self.first.turn();
        self.second.turn();
        self.reversed = !self.reversed;
    }
}

impl<A: Undo, B: Undo> Undo for Pair<A, B> {
    fn undo(&self, block: u64) -> u64 {
        if self.reversed {
            self.second.undo(self.first.undo(block))
        } else {
            self.first.undo(self.second.undo(block))
        }
    }
}
