// The initial permutation IP, and the one that takes it back: five exchanges of bits each.
ghost use Rattle.std.specs.Prelude.{◌≡◌, ◌<◌, refl};
ghost use Rattle.des.specs.internal.Swaps.{exchanged};
ghost use Rattle.des.specs.Tables.{initial};

use ciphers::Permutation;

// The bits that a mask names and those some places above them exchanged. The bits that move and those that stay are taken
// apart, which takes fewer steps one after another than joining in where they differ.
#[tactic(auto, unfolding(crate::specs::internal::Swaps::exchanged))]
pub(crate) fn exchange(block: u64, places: u32, mask: u64) -> u64
    requires { places < 64 }
    ensures { result ≡ exchanged places mask block }
{
    let staying = block & !(mask | (mask << places));
    staying ^ ((block >> places) & mask) ^ ((block & mask) << places)
}

pub(crate) struct Initial;

impl Permutation for Initial {
    ghost table = { initial };

    ghost once = { record { whole = refl; places_only = refl; once = refl } };

    #[tactic(auto, using(crate::proofs::Swaps::initial_exchanges))]
    #[inline(always)]
    fn permuted(block: u64) -> u64 {
        let nibbles = exchange(block, 36, 0x0F0F_0F0F);
        let halves = exchange(nibbles, 48, 0xFFFF);
        let pairs = exchange(halves, 30, 0xCCCC_CCCC);
        let bytes = exchange(pairs, 24, 0xFF00_FF00);
        exchange(bytes, 33, 0x5555_5555)
    }

    #[tactic(auto, using(crate::proofs::Swaps::inverse_exchanges))]
    #[inline(always)]
    fn restored(block: u64) -> u64 {
        let bits = exchange(block, 33, 0x5555_5555);
        let bytes = exchange(bits, 24, 0xFF00_FF00);
        let pairs = exchange(bytes, 30, 0xCCCC_CCCC);
        let halves = exchange(pairs, 48, 0xFFFF);
        exchange(halves, 36, 0x0F0F_0F0F)
    }
}
