// IDEA as a cipher: a four-word network over the product modulo 65,537 and the sum modulo 2^16.
ghost use Rattle.std.specs.Prelude.{◌≡◌, ◌≤◌};
ghost use Rattle.std.specs.Int.{from_be_bytes, w128};
ghost use Rattle.ciphers.specs.Maps.{SameMap};
ghost use Rattle.four_words.specs.Keying.{key_of};
ghost use Rattle.four_words.specs.Passing.{four_word, turned};
ghost use Rattle.idea.specs.Held.{network_in};
ghost use Rattle.idea.specs.Idea.{idea};
ghost use Rattle.idea.specs.Keys.{key_words};
ghost use Rattle.idea.specs.Networks.{network_of};
ghost use Rattle.idea.specs.internal.Sealing.{sealing};

use crate::expansion::key_schedule;
use crate::mixing::IdeaBox;
use ciphers::{Cipher, Four, Undo};
use four_words::{FourWord, KeyWords, Rounds, Words};
use groups::Sum16;
use products::Product16;

type IdeaNetwork = FourWord<Product16, Sum16, IdeaBox>;

#[derive(Drop)]
pub struct Idea {
    network: IdeaNetwork,
}

// The network of a key. It tells too which numbers of rounds there are, which its caller's proof needs.
fn network(key: &[u8; 16], rounds: Rounds) -> IdeaNetwork
    ensures key { result.key ≡ key_of rounds (key_words (from_be_bytes w128 key.now)) }
    ensures some { 1 ≤ rounds }
    ensures few { rounds ≤ 8 }
{
    FourWord::new(IdeaBox, KeyWords::new(rounds, &key_schedule(key)))
}

impl Idea {
    // A call of its own in compiled code too: a caller would have to clear the room for all of this whenever it is entered.
    #[inline(never)]
    #[tactic(auto, using(crate::proofs::Passes::sealed_new))]
    pub fn new(key: &[u8; 16], rounds: Rounds) -> Idea
        ensures network { network_in result ≡ network_of (key_of rounds (key_words (from_be_bytes w128 key.now))) }
        ensures map { SameMap (⟦<Idea as Cipher>⟧.map result) (idea (from_be_bytes w128 key.now) rounds) }
    {
        Idea {
            network: network(key, rounds),
        }
    }

    // The words that are joined last, behind the rounds. Turning changes them.
    pub fn closing(&self) -> &Words
        ensures { result.now ≡ (network_in self.now).key.closing }
    {
        self.network.key().closing()
    }
}

impl Cipher for Idea {
    ghost map = { sealing };

    // the network is turned: its words become those of the turned network
    ghost turns = { λ old new. network_in new ≡ turned (network_in old) };

    fn seal(&self, block: u64) -> u64
        ensures map { result ≡ ⟦<Self as Cipher>⟧.map self.now block }
        ensures network { result ≡ four_word (network_in self.now) block }
    {
        self.network.seal(block)
    }

    fn seal_four(&self, blocks: Four<u64>) -> Four<u64> {
        self.network.seal_four(blocks)
    }

    fn turn(&mut self) {
        Cipher::turn(&mut self.network);
    }
}

impl Undo for Idea {
    fn undo(&self, block: u64) -> u64 {
        Undo::undo(&self.network, block)
    }
}
