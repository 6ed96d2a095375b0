// Three ciphers of one kind: the first, then the second's inverse, then the third.
ghost use Rattle.std.specs.Prelude.{◌≡◌, ℕ, ◌^◌, ◌<◌};
ghost use Rattle.ciphers.specs.Maps.{Inverse, SameMap, in_turn};

use crate::interface::Cipher;
use crate::undoing::Undo;
use networks::Four;
use std::mem;

// The second is kept turned, as the inverse that is sealed with.
#[derive(Drop)]
pub struct Ede<C> {
    first: C,
    second: C,
    third: C,
}

impl<C: Cipher> Ede<C> {
    pub fn new(first: C, mut second: C, third: C) -> Self
        ensures first { result.first ≡ first }
        ensures second { Inverse (C.Cipher.map second) (C.Cipher.map result.second) }
        ensures turned { C.Cipher.turns second result.second }
        ensures third { result.third ≡ third }
        ensures map { (g : ℕ → ℕ) → Inverse (C.Cipher.map second) g → (b : ℕ) → C.Cipher.map first b < 2 ^ 64 →
            ⟦<Self as Cipher>⟧.map result b ≡ in_turn (C.Cipher.map first) g (C.Cipher.map third) b }
        ensures equal { SameMap (C.Cipher.map first) (C.Cipher.map second) → SameMap (C.Cipher.map second) (C.Cipher.map third) →
            SameMap (⟦<Self as Cipher>⟧.map result) (C.Cipher.map first) }
    {
        second.turn();
        Ede {
            first,
            second,
            third,
        }
    }
}

impl<C: Cipher> Cipher for Ede<C> {
    ghost map = { λ e. in_turn (C.Cipher.map e.first) (C.Cipher.map e.second) (C.Cipher.map e.third) };

    // the first and the third change places, and all three are turned
    ghost turns = { λ old new. C.Cipher.turns old.third new.first × C.Cipher.turns old.second new.second × C.Cipher.turns old.first new.third };

    fn seal(&self, block: u64) -> u64
        ensures map { result ≡ ⟦<Self as Cipher>⟧.map self.now block }
        ensures parts { result ≡ in_turn (C.Cipher.map self.now.first) (C.Cipher.map self.now.second) (C.Cipher.map self.now.third) block }
    {
        self.third.seal(self.second.seal(self.first.seal(block)))
    }

    fn seal_four(&self, blocks: Four<u64>) -> Four<u64> {
        self.third
            .seal_four(self.second.seal_four(self.first.seal_four(blocks)))
    }

    fn turn(&mut self) {
        mem::swap(&mut self.first, &mut self.third);
        self.first.turn();
        self.second.turn();
        self.third.turn();
    }
}

impl<C: Undo> Undo for Ede<C> {
    fn undo(&self, block: u64) -> u64 {
        self.first.undo(self.second.undo(self.third.undo(block)))
    }
}
