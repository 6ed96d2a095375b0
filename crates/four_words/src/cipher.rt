// Every four-word network is a cipher.
ghost use Rattle.std.specs.Prelude.{◌≡◌};
ghost use Rattle.four_words.specs.Keying.{KeyFits};
ghost use Rattle.four_words.specs.Networks.{network};
ghost use Rattle.four_words.specs.Passing.{four_word, turned, unran};
ghost use Rattle.four_words.specs.Quarters.{block_of, words_of};

use crate::boxes::MixingBox;
use crate::network::FourWord;
use ciphers::{Cipher, Four, Undo};
use groups::Group;

impl<O: Group<Word = u16>, I: Group<Word = u16>, B: MixingBox> Cipher for FourWord<O, I, B> {
    ghost map = { λ n. four_word (network O.Group I.Group B.MixingBox n) };

    // the network is turned: its words become those of the turned network
    ghost turns = { λ old new. network O.Group I.Group B.MixingBox new ≡ turned (network O.Group I.Group B.MixingBox old) };

    // The block of what the network makes of this block's words.
    fn seal(&self, block: u64) -> u64
        ensures map { result ≡ ⟦<Self as Cipher>⟧.map self.now block }
        ensures network { result ≡ four_word (network O.Group I.Group B.MixingBox self.now) block }
    {
        self.run(block.into()).into()
    }

    fn seal_four(&self, blocks: Four<u64>) -> Four<u64> {
        let words = self.run_four(Four {
            first: blocks.first.into(),
            second: blocks.second.into(),
            third: blocks.third.into(),
            fourth: blocks.fourth.into(),
        });
        Four {
            first: words.first.into(),
            second: words.second.into(),
            third: words.third.into(),
            fourth: words.fourth.into(),
        }
    }

    #[tactic(auto, using(crate::proofs::Splitting::inverse_blocks))]
    fn turn(&mut self) {
        self.turn();
    }
}

impl<O: Group<Word = u16>, I: Group<Word = u16>, B: MixingBox> FourWord<O, I, B> {
    // The rounds of a block undone.
    fn undone_block(&self, block: u64) -> u64
        ensures value { result ≡ block_of (unran (network O.Group I.Group B.MixingBox self.now) (words_of block)) }
        ensures fits { KeyFits self.now.key }
    {
        self.undone(block.into()).into()
    }
}

impl<O: Group<Word = u16>, I: Group<Word = u16>, B: MixingBox> Undo for FourWord<O, I, B> {
    fn undo(&self, block: u64) -> u64 {
        self.undone_block(block)
    }
}
