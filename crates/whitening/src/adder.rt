// A word adder as a cipher, over any group on 32-bit words.
ghost use Rattle.std.specs.Prelude.{◌≡◌, ◌^◌, ◌<◌};
ghost use Rattle.std.specs.Int.{from_be_bytes, w64};
ghost use Rattle.networks.specs.Halves.{halves_of, Words};
ghost use Rattle.ciphers.specs.Maps.{SameMap};
ghost use Rattle.whitening.specs.Whitening.{inverses, joined_with, wadd, whitened, wxor};

use ciphers::{Cipher, Undo};
use groups::{Group, Sum32, Xor32};
use networks::Halves;
use std::marker::PhantomData;

// A word for each half of a block.
#[derive(Drop)]
pub struct Whitening<G: Group<Word = u32>> {
    words: Halves<u32>,
    group: PhantomData<G>,
}

pub type Wxor = Whitening<Xor32>;

pub type Wadd = Whitening<Sum32>;

impl Wxor {
    // The halves of a key of eight bytes xored.
    pub fn xoring(key: &[u8; 8]) -> Wxor
        ensures words { result.words ≡ halves_of (from_be_bytes w64 key.now) }
        ensures map { SameMap (⟦<Wxor as Cipher>⟧.map result) (wxor (from_be_bytes w64 key.now)) }
    {
        Self::keyed(key)
    }
}

impl Wadd {
    // The halves of a key of eight bytes added modulo 2^32.
    pub fn adding(key: &[u8; 8]) -> Wadd
        ensures words { result.words ≡ halves_of (from_be_bytes w64 key.now) }
        ensures map { SameMap (⟦<Wadd as Cipher>⟧.map result) (wadd (from_be_bytes w64 key.now)) }
    {
        Self::keyed(key)
    }
}

impl<G: Group<Word = u32>> Whitening<G> {
    // The left word for the left half, and the right word for the right one.
    pub fn new(words: Halves<u32>) -> Self
        ensures words { result.words ≡ words }
        ensures map { SameMap (⟦<Self as Cipher>⟧.map result) (joined_with G.joined words) }
    {
        Whitening {
            words,
            group: PhantomData,
        }
    }

    // The halves of a key of eight bytes are the words, the first byte most significant.
    pub fn keyed(key: &[u8; 8]) -> Self
        ensures words { result.words ≡ halves_of (from_be_bytes w64 key.now) }
        ensures map { SameMap (⟦<Self as Cipher>⟧.map result) (whitened G.joined (from_be_bytes w64 key.now)) }
    {
        Self::new(u64::from_be_bytes(*key).into())
    }

    // The halves of a block, each joined with its word.
    fn joined(words: Halves<u32>, block: u64) -> u64
        ensures { result ≡ joined_with G.joined words block }
    {
        let halves = Halves::from(block);
        Halves {
            left: G::join(halves.left, words.left),
            right: G::join(halves.right, words.right),
        }
        .into()
    }

    // The inverse of each word. It also says that the words have 32 bits, which its callers' proofs need.
    fn inverses(&self) -> Halves<u32>
        ensures value { result ≡ inverses G.inverted self.now.words }
        ensures fits { Words (λ x. x < 2 ^ 32) self.now.words }
    {
        Halves {
            left: G::inverse(self.words.left),
            right: G::inverse(self.words.right),
        }
    }

    // Separate, as is `undone`, so that a wrong body fails at this contract.
    fn invert(&mut self)
        ensures value { self.new.words ≡ inverses G.inverted self.old.words }
        ensures fits { Words (λ x. x < 2 ^ 32) self.old.words }
    {
        self.words = self.inverses();
    }

    fn undone(&self, block: u64) -> u64
        ensures value { result ≡ joined_with G.joined (inverses G.inverted self.now.words) block }
        ensures fits { Words (λ x. x < 2 ^ 32) self.now.words }
    {
        Self::joined(self.inverses(), block)
    }
}

impl<G: Group<Word = u32>> Cipher for Whitening<G> {
    ghost map = { λ w. joined_with G.joined w.words };

    // both words become their inverses
    ghost turns = { λ old new. new.words ≡ inverses G.inverted old.words };

    fn seal(&self, block: u64) -> u64
        ensures map { result ≡ ⟦<Self as Cipher>⟧.map self.now block }
        ensures words { result ≡ joined_with G.joined self.now.words block }
    {
        Self::joined(self.words, block)
    }

    fn turn(&mut self) {
        self.invert();
    }
}

impl<G: Group<Word = u32>> Undo for Whitening<G> {
    fn undo(&self, block: u64) -> u64 {
        self.undone(block)
    }
}
