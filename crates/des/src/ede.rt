// Triple DES under two keys or three: DES under the first, back under the second, and again under the third.
ghost use Rattle.std.specs.Prelude.{◌≡◌, ◌≤◌, ◌+◌, ◌*◌, length, take, drop};
ghost use Rattle.ciphers.specs.Maps.{SameMap};
ghost use Rattle.des.specs.Held.{networks_in};
ghost use Rattle.des.specs.Networks.{networks_of};
ghost use Rattle.des.specs.Triple.{tdea, key_at};

use crate::triple::TripleDes;
use ciphers::Cipher;

// Key `index` of several, from 0.
#[tactic(auto, using(crate::proofs::Three::chunk_at))]
fn key_at(keys: &[u8], index: usize) -> &[u8; 8]
    requires { 8 * index + 8 ≤ length keys.now }
    ensures { result.now ≡ take 8 (drop (8 * index) keys.now) }
{
    let (chunks, _) = keys.as_chunks::<8>();
    &chunks[index]
}

// Three keys of eight bytes, one after another.
#[tactic(auto, unfolding(crate::specs::Triple::key_at))]
pub fn ede3(keys: &[u8; 24]) -> TripleDes
    ensures networks { networks_in result ≡ networks_of (key_at keys.now 0) (key_at keys.now 1) (key_at keys.now 2) }
    ensures map { SameMap (⟦<TripleDes as Cipher>⟧.map result) (tdea (key_at keys.now 0) (key_at keys.now 1) (key_at keys.now 2)) }
{
    TripleDes::under(key_at(keys, 0), key_at(keys, 1), key_at(keys, 2))
}

// Two keys of eight bytes, one after the other; the third is the first.
#[tactic(auto, unfolding(crate::specs::Triple::key_at))]
pub fn ede2(keys: &[u8; 16]) -> TripleDes
    ensures networks { networks_in result ≡ networks_of (key_at keys.now 0) (key_at keys.now 1) (key_at keys.now 0) }
    ensures map { SameMap (⟦<TripleDes as Cipher>⟧.map result) (tdea (key_at keys.now 0) (key_at keys.now 1) (key_at keys.now 0)) }
{
    TripleDes::under(key_at(keys, 0), key_at(keys, 1), key_at(keys, 0))
}
