// The complement law of DES.
ghost use Rattle.std.specs.Prelude.{◌≡◌};
ghost use Rattle.std.specs.Int.{from_be_bytes, w64};
ghost use Rattle.des.specs.Des.{des};
ghost use Rattle.des.specs.Opposites.{Opposite};

use crate::cipher::Des;
use ciphers::Cipher;

// The blocks to which two texts are sealed.
#[derive(Clone, Copy, Debug, PartialEq, Eq)]
pub struct Sealed {
    pub first: u64,
    pub second: u64,
}

// The block to which a text is sealed.
fn seal_under(key: &[u8; 8], text: u64) -> u64
    ensures { result ≡ des (from_be_bytes w64 key.now) text }
{
    Des::new(key).seal(text)
}

// Seals the first text under the first key and the second under the second. Where the keys differ in every bit, and so
// do the texts, the sealed blocks differ in every bit.
#[tactic(auto, using(crate::proofs::Complement::complement))]
pub fn seal_both(
    first_key: &[u8; 8],
    first_text: u64,
    second_key: &[u8; 8],
    second_text: u64,
) -> Sealed
    ensures first { result.first ≡ des (from_be_bytes w64 first_key.now) first_text }
    ensures second { result.second ≡ des (from_be_bytes w64 second_key.now) second_text }
    ensures complement { Opposite 64 (from_be_bytes w64 first_key.now) (from_be_bytes w64 second_key.now) →
        Opposite 64 first_text second_text → Opposite 64 result.first result.second }
{
    Sealed {
        first: seal_under(first_key, first_text),
        second: seal_under(second_key, second_text),
    }
}
