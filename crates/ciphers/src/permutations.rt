// Permutations of the bits of a block.
ghost use Rattle.std.specs.Prelude.{◌≡◌, not, List, ℕ, true, false, if◌then◌else◌};
ghost use Rattle.selections.specs.Permutations.{NamesEachOnce, inverse_table};
ghost use Rattle.selections.specs.Selections.{picked};
ghost use Rattle.ciphers.specs.internal.Sealing.{permuted_by};

use crate::interface::Cipher;
use crate::undoing::Undo;
use std::marker::PhantomData;

// A table of places, and both ways through it.
pub trait Permutation {
    // entry i names the bit that becomes bit i, counted from 1 at the most significant
    ghost table: { List ℕ };

    fn permuted(block: u64) -> u64
        ensures { result ≡ picked 64 table block };

    fn restored(block: u64) -> u64
        ensures { result ≡ picked 64 (inverse_table 64 table) block };

    // what each implementation shows
    ghost once: { NamesEachOnce 64 table };
}

// A permutation by its table, or by the inverse table once it is turned. A turn is in place, so the direction is a value.
#[derive(Drop)]
pub struct BitPermutation<P> {
    inverted: bool,
    permutation: PhantomData<P>,
}

impl<P: Permutation> BitPermutation<P> {
    pub fn new() -> Self
        ensures direction { result.inverted ≡ false }
        ensures map { (b : ℕ) → ⟦<Self as Cipher>⟧.map result b ≡ picked 64 P.table b }
    {
        BitPermutation {
            inverted: false,
            permutation: PhantomData,
        }
    }

    // The permutation by the inverse table.
    pub fn inverse() -> Self
        ensures direction { result.inverted ≡ true }
        ensures map { (b : ℕ) → ⟦<Self as Cipher>⟧.map result b ≡ picked 64 (inverse_table 64 P.table) b }
    {
        BitPermutation {
            inverted: true,
            permutation: PhantomData,
        }
    }

    #[inline(always)]
    fn through(inverted: bool, block: u64) -> u64
        ensures { result ≡ permuted_by inverted P.table block }
    {
        if inverted {
            P::restored(block)
        } else {
            P::permuted(block)
        }
    }

    fn undone(&self, block: u64) -> u64
        ensures { result ≡ permuted_by (not self.now.inverted) P.table block }
    {
        Self::through(!self.inverted, block)
    }

    fn invert(&mut self)
        ensures { self.new.inverted ≡ not self.old.inverted }
    {
        self.inverted = !self.inverted;
    }
}

impl<P: Permutation> Cipher for BitPermutation<P> {
    ghost map = { λ p. permuted_by p.inverted P.table };

    // it goes by the other table
    ghost turns = { λ old new. new.inverted ≡ not old.inverted };

    fn seal(&self, block: u64) -> u64
        ensures map { result ≡ ⟦<Self as Cipher>⟧.map self.now block }
        ensures table { result ≡ picked 64 (if self.now.inverted then inverse_table 64 P.table else P.table) block }
    {
        Self::through(self.inverted, block)
    }

    fn turn(&mut self) {
        self.invert();
    }
}

impl<P: Permutation> Undo for BitPermutation<P> {
    fn undo(&self, block: u64) -> u64 {
        self.undone(block)
    }
}
