// XTEA as a cipher: a Feistel network of two rounds for each cycle, and then the halves swapped.
ghost use Rattle.std.specs.Prelude.{◌≡◌, false};
ghost use Rattle.networks.specs.Rounds.{turned};
ghost use Rattle.ciphers.specs.Maps.{SameMap};
ghost use Rattle.xtea.specs.Networks.{network_of, sealed_by};
ghost use Rattle.xtea.specs.Xtea.{words_of, xtea};

use crate::cycles::Cycles;
use crate::expansion::key_schedule;
use crate::rounding::XteaRound;
use ciphers::{Cipher, Four, Pair, SwapHalves, Undo};
use groups::Sum32;
use networks::Feistel;

#[derive(Drop)]
pub struct Xtea {
    layers: Pair<Feistel<Sum32, XteaRound, 64>, SwapHalves>,
    // the pair is turned where its network is
    ghost together: { layers.reversed ≡ layers.first.inverted },
}

impl Xtea {
    ghost use Rattle.xtea.specs.Held.{network_in};

    #[tactic(auto, using(crate::proofs::Cycling::sealed_new))]
    pub fn new(key: &[u8; 16], cycles: Cycles) -> Xtea
        ensures network { network_in result ≡ network_of false (words_of key.now cycles) }
        ensures map { SameMap (⟦<Xtea as Cipher>⟧.map result) (xtea key.now cycles) }
    {
        let rounds = Feistel::new(XteaRound, key_schedule(key, cycles));
        Xtea {
            layers: Pair::new(rounds, SwapHalves),
        }
    }
}

impl Cipher for Xtea {
    ghost use Rattle.xtea.specs.Held.{network_in};
    ghost use Rattle.xtea.specs.internal.Sealing.{sealing};

    ghost map = { sealing };

    // the network is turned: its round words are reversed, and its function's values inverted, or no longer inverted
    ghost turns = { λ old new. network_in new ≡ turned (network_in old) };

    fn seal(&self, block: u64) -> u64
        ensures map { result ≡ ⟦<Self as Cipher>⟧.map self.now block }
        ensures network { result ≡ sealed_by (network_in self.now) block }
    {
        self.layers.seal(block)
    }

    fn seal_four(&self, blocks: Four<u64>) -> Four<u64> {
        self.layers.seal_four(blocks)
    }

    fn turn(&mut self) {
        self.layers.turn();
    }
}

impl Undo for Xtea {
    fn undo(&self, block: u64) -> u64 {
        self.layers.undo(block)
    }
}
