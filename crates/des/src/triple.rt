// Triple DES: three of DES's networks between the permutations, the second of them turned.
ghost use Rattle.std.specs.Prelude.{◌≡◌, false, map, not, reverse};
ghost use Rattle.std.specs.Int.{from_be_bytes, w64};
ghost use Rattle.networks.specs.Rounds.{turned};
ghost use Rattle.ciphers.specs.Maps.{SameMap};
ghost use Rattle.des.specs.Keys.{round_words};
ghost use Rattle.des.specs.Networks.{network_of, networks_of, sealed_by};
ghost use Rattle.des.specs.Triple.{tdea};
ghost use Rattle.des.specs.internal.Between.{enciphering, in_network};

use crate::cipher::Network;
use crate::initial::Initial;
use crate::keys::key_schedule;
use crate::rounding::DesRound;
use ciphers::{BitPermutation, Cipher, Ede, Four, Pair, Undo};
use networks::Feistel;

// Three networks between the permutations. Between one DES and the next there is none, since the inverse of the initial
// permutation and the initial permutation take each other back.
#[derive(Drop)]
pub struct TripleDes {
    layers: Pair<BitPermutation<Initial>, Pair<Ede<Network>, BitPermutation<Initial>>>,
    // the layers are turned together
    ghost together: { (layers.first.inverted ≡ layers.reversed) × (layers.second.reversed ≡ layers.reversed) × (layers.second.second.inverted ≡ not layers.reversed) },
}

fn network(key: &[u8; 8]) -> Network
    ensures map { ⟦<Network as Cipher>⟧.map result ≡ enciphering (round_words (from_be_bytes w64 key.now)) }
    ensures network { network_of result.inverted result.schedule ≡ network_of false (round_words (from_be_bytes w64 key.now)) }
{
    Feistel::new(DesRound, key_schedule(key))
}

// The networks of three keys in turn, the second taken back.
fn networks(first: &[u8; 8], second: &[u8; 8], third: &[u8; 8]) -> Ede<Network>
    ensures map { SameMap (⟦<Ede<Network> as Cipher>⟧.map result) (in_network (from_be_bytes w64 first.now) (from_be_bytes w64 second.now) (from_be_bytes w64 third.now)) }
    ensures first { network_of result.first.inverted result.first.schedule ≡ network_of false (round_words (from_be_bytes w64 first.now)) }
    ensures second { network_of result.second.inverted result.second.schedule ≡ turned (network_of false (round_words (from_be_bytes w64 second.now))) }
    ensures third { network_of result.third.inverted result.third.schedule ≡ network_of false (round_words (from_be_bytes w64 third.now)) }
{
    Ede::new(network(first), network(second), network(third))
}

impl TripleDes {
    ghost use Rattle.des.specs.Held.{networks_in};
    ghost use Rattle.des.specs.internal.Sealing.{sealing_three};

    pub(crate) fn under(first: &[u8; 8], second: &[u8; 8], third: &[u8; 8]) -> TripleDes
        ensures networks { networks_in result ≡ networks_of (from_be_bytes w64 first.now) (from_be_bytes w64 second.now) (from_be_bytes w64 third.now) }
        ensures map { SameMap (⟦<TripleDes as Cipher>⟧.map result) (tdea (from_be_bytes w64 first.now) (from_be_bytes w64 second.now) (from_be_bytes w64 third.now)) }
    {
        let inner = networks(first, second, third);
        TripleDes {
            layers: Pair::new(
                BitPermutation::new(),
                Pair::new(inner, BitPermutation::inverse()),
            ),
        }
    }

    // What the layers make of a block. A part of its own, so that a wrong block is refused here, and not where a proof cites it.
    fn layered(&self, block: u64) -> u64
        ensures { result ≡ sealing_three self.now block }
    {
        self.layers.seal(block)
    }
}

impl Cipher for TripleDes {
    ghost use Rattle.des.specs.Held.{networks_in};
    ghost use Rattle.des.specs.internal.Sealing.{sealing_three};

    ghost map = { sealing_three };

    // the three networks change their order, and each is turned: its round words are reversed, and its function's values
    // inverted, or no longer inverted
    ghost turns = { λ old new. networks_in new ≡ reverse (map turned (networks_in old)) };

    fn seal(&self, block: u64) -> u64
        ensures map { result ≡ ⟦<Self as Cipher>⟧.map self.now block }
        ensures networks { result ≡ sealed_by (networks_in self.now) block }
    {
        self.layered(block)
    }

    fn seal_four(&self, blocks: Four<u64>) -> Four<u64> {
        self.layers.seal_four(blocks)
    }

    fn turn(&mut self) {
        self.layers.turn();
    }
}

impl Undo for TripleDes {
    fn undo(&self, block: u64) -> u64 {
        self.layers.undo(block)
    }
}
