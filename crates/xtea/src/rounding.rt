// XTEA's round function.
ghost use Rattle.std.specs.Prelude.{◌+◌, ◌*◌, ◌/◌, ◌%◌, ◌^◌, bit_xor};
ghost use Rattle.std.proofs.Common.{arith};
ghost use Rattle.std.proofs.lemmas.Nat.{xor_lt};
ghost use Rattle.xtea.specs.Xtea.{mixed};

use networks::RoundFunction;

#[derive(Clone, Copy)]
pub struct XteaRound;

impl RoundFunction for XteaRound {
    type Half = u32;

    ghost value = { λ _ half word. mixed half word };

    ghost within = { λ f half word. xor_lt 32 ((bit_xor (16 * half % 2 ^ 32) (half / 32) + half) % 2 ^ 32) (word % 2 ^ 32) (omega arith) (omega arith) };

    fn mix(&self, half: u32, word: u64) -> u32 {
        let spread = half.wrapping_mul(16) ^ (half >> 5);
        spread.wrapping_add(half) ^ ((word % 0x1_0000_0000) as u32)
    }
}
