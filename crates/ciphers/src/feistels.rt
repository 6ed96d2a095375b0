// Every Feistel network over words of 32 bits, in whatever form, is a cipher.
ghost use Rattle.std.specs.Prelude.{◌≡◌};
ghost use Rattle.networks.specs.Networks.{network};
ghost use Rattle.networks.specs.Rounds.{ran, turned, unran};
ghost use Rattle.ciphers.specs.Blocks.{block_of_words, feistel_of, words_of};

use crate::interface::Cipher;
use crate::undoing::Undo;
use groups::Group;
use networks::{Feistel, Four, HalfWord, Halves, RoundFunction};

// The halves of a block.
fn split<W: HalfWord>(block: u64) -> Halves<W>
    ensures { result ≡ words_of W.HalfWord.word_of block }
{
    let halves: Halves<u32> = block.into();
    Halves {
        left: W::from_number(halves.left),
        right: W::from_number(halves.right),
    }
}

fn join<W: HalfWord>(halves: Halves<W>) -> u64
    ensures { result ≡ block_of_words W.HalfWord.number_of halves }
{
    Halves {
        left: halves.left.to_number(),
        right: halves.right.to_number(),
    }
    .into()
}

impl<W: HalfWord, G: Group<Word = W>, F: RoundFunction<Half = W>, const N: usize> Cipher
    for Feistel<G, F, N> {
    ghost map = { λ n. feistel_of W.HalfWord.word_of W.HalfWord.number_of (network G.Group F.RoundFunction n) };

    // the network is turned: its round words are reversed, and its function's values inverted, or no longer inverted
    ghost turns = { λ old new. network G.Group F.RoundFunction new ≡ turned (network G.Group F.RoundFunction old) };

    fn seal(&self, block: u64) -> u64
        ensures map { result ≡ ⟦<Self as Cipher>⟧.map self.now block }
        ensures network { result ≡ feistel_of W.HalfWord.word_of W.HalfWord.number_of (network G.Group F.RoundFunction self.now) block }
    {
        join(self.run(split(block)))
    }

    fn seal_four(&self, blocks: Four<u64>) -> Four<u64> {
        let halves = self.run_four(Four {
            first: split(blocks.first),
            second: split(blocks.second),
            third: split(blocks.third),
            fourth: split(blocks.fourth),
        });
        Four {
            first: join(halves.first),
            second: join(halves.second),
            third: join(halves.third),
            fourth: join(halves.fourth),
        }
    }

    fn turn(&mut self) {
        self.turn();
    }
}

impl<W: HalfWord, G: Group<Word = W>, F: RoundFunction<Half = W>, const N: usize> Undo
    for Feistel<G, F, N> {
    fn undo(&self, block: u64) -> u64 {
        join(self.undo(split(block)))
    }
}
