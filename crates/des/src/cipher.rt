// DES as a cipher: the initial permutation, a Feistel network of sixteen rounds over xor, and the inverse permutation.
ghost use Rattle.std.specs.Prelude.{◌≡◌, ℕ, [], ◌∷◌, false, not};
ghost use Rattle.std.specs.Int.{from_be_bytes, w64};
ghost use Rattle.networks.specs.Rounds.{turned};
ghost use Rattle.ciphers.specs.Maps.{SameMap, Inverse};
ghost use Rattle.des.specs.Des.{des, deciphered};
ghost use Rattle.des.specs.Keys.{round_words, SameButEighths};
ghost use Rattle.des.specs.Networks.{network_of, sealed_by};

use crate::initial::Initial;
use crate::keys::key_schedule;
use crate::rounding::DesRound;
use crate::spread::XorSpread;
use ciphers::{BitPermutation, Cipher, Four, Pair, Undo};
use networks::Feistel;

pub(crate) type Network = Feistel<XorSpread, DesRound, 16>;

#[derive(Drop)]
pub struct Des {
    layers: Pair<BitPermutation<Initial>, Pair<Network, BitPermutation<Initial>>>,
    // the layers are turned together
    ghost together: { (layers.first.inverted ≡ layers.reversed) × (layers.second.reversed ≡ layers.reversed) × (layers.second.second.inverted ≡ not layers.reversed) },
}

impl Des {
    ghost use Rattle.des.specs.Held.{network_in};
    ghost use Rattle.des.specs.internal.Sealing.{sealing};

    #[tactic(auto, using(crate::proofs::Ciphering::sealed_new, crate::proofs::Deciphering::des_inverse, crate::proofs::Eighths::des_same))]
    pub fn new(key: &[u8; 8]) -> Des
        ensures network { network_in result ≡ network_of false (round_words (from_be_bytes w64 key.now)) }
        ensures map { SameMap (⟦<Des as Cipher>⟧.map result) (des (from_be_bytes w64 key.now)) }
        ensures eighths { (k : ℕ) → SameButEighths (from_be_bytes w64 key.now) k → (b : ℕ) → des (from_be_bytes w64 key.now) b ≡ des k b }
        ensures inverse { Inverse (des (from_be_bytes w64 key.now)) (deciphered (from_be_bytes w64 key.now)) }
    {
        let rounds = Feistel::new(DesRound, key_schedule(key));
        Des {
            layers: Pair::new(
                BitPermutation::new(),
                Pair::new(rounds, BitPermutation::inverse()),
            ),
        }
    }

    // What the layers make of a block. A part of its own, so that a wrong block is refused here, and not where a proof cites it.
    fn layered(&self, block: u64) -> u64
        ensures { result ≡ sealing self.now block }
    {
        self.layers.seal(block)
    }
}

impl Cipher for Des {
    ghost use Rattle.des.specs.Held.{network_in};
    ghost use Rattle.des.specs.internal.Sealing.{sealing};

    ghost map = { sealing };

    // the network is turned: its round words are reversed, and its function's values inverted, or no longer inverted
    ghost turns = { λ old new. network_in new ≡ turned (network_in old) };

    fn seal(&self, block: u64) -> u64
        ensures map { result ≡ ⟦<Self as Cipher>⟧.map self.now block }
        ensures network { result ≡ sealed_by (network_in self.now ∷ []) block }
    {
        self.layered(block)
    }

    fn seal_four(&self, blocks: Four<u64>) -> Four<u64> {
        self.layers.seal_four(blocks)
    }

    fn turn(&mut self) {
        self.layers.turn();
    }
}

impl Undo for Des {
    fn undo(&self, block: u64) -> u64 {
        self.layers.undo(block)
    }
}
