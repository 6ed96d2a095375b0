// Exclusive or of 32-bit words: each word is its own inverse.
ghost use Rattle.std.specs.Prelude.{bit_xor};
ghost use Rattle.groups.specs.internal.Xor.{xor_lawful};

use crate::lawful::Group;

#[derive(Clone, Copy)]
pub struct Xor32;

impl Group for Xor32 {
    type Word = u32;

    const NEUTRAL: u32 = 0;

    ghost NEUTRAL = { 0 };

    ghost joined = { bit_xor };

    ghost inverted = { λ x. x };

    ghost lawful = { xor_lawful };

    fn join(left: u32, right: u32) -> u32 {
        left ^ right
    }

    fn inverse(word: u32) -> u32 {
        word
    }
}
