// Halves as the boxes take them, and their group.
ghost use Rattle.std.specs.Prelude.{◌≡◌, ◌^◌, ◌<◌, bit_xor, refl};
ghost use Rattle.groups.specs.internal.Xor.{xor_lawful};
ghost use Rattle.des.specs.internal.Spread.{Groups, half_of, spread};

use groups::{Group, Word};
use networks::HalfWord;
use std::marker::Model;

// The bits of eight groups of six, each of them in a byte.
pub(crate) const GROUPS: u64 = 0x3F3F_3F3F_3F3F_3F3F;

// A half, kept as the eight groups that E has of it. A round then needs no E, and what it joins is spread like it.
#[derive(Clone, Copy)]
pub(crate) struct Spread {
    groups: u64,
}

// A contract sees the half.
impl Model for Spread {
    ghost use Rattle.std.specs.Prelude.{ℕ, ◌≡◌};
    ghost use Rattle.des.specs.internal.Spread.{half_of, spread};

    ghost Value = { ℕ };

    ghost view = { λ s. half_of s.groups };

    ghost inverse = { λ half. record { groups = spread half } };

    ghost invariant = { λ s. spread (half_of s.groups) ≡ s.groups };
}

// E of a half, a group to a byte: those of boxes 1, 3, 5 and 7 high, since what boxes have that are two apart lies a byte apart.
#[tactic(auto, using(crate::proofs::Spreading::spread_shifts))]
fn shifted(half: u32) -> u64
    ensures { result ≡ spread half }
{
    let half = u64::from(half);
    let odd = (half >> 3) ^ (half << 29);
    let even = (half << 1) ^ (half >> 31);
    ((odd & 0x3F3F_3F3F) << 32) ^ (even & 0x3F3F_3F3F)
}

// The same, and that it has the half.
#[tactic(auto, using(crate::proofs::Spreading::half_spread))]
fn expanded(half: u32) -> u64
    ensures value { result ≡ spread half }
    ensures half { half_of result ≡ half }
{
    shifted(half)
}

// The half whose groups they are: the middle four bits of each.
#[tactic(auto, using(crate::proofs::Spreading::half_shifts))]
fn half_of(groups: u64) -> u32
    ensures { result ≡ half_of groups }
{
    (((groups >> 29) & 0xF0F0_F0F0) ^ ((groups >> 1) & 0x0F0F_0F0F)) as u32
}

impl Spread {
    fn of(half: u32) -> Spread
        ensures { result ≡ half }
    {
        Spread::from_groups(expanded(half))
    }

    fn half(self) -> u32
        ensures { result ≡ self }
    {
        half_of(self.groups)
    }

    // The half itself. It tells that it has 32 bits.
    #[tactic(auto, using(crate::proofs::Spreading::half_below))]
    fn told(self) -> Spread
        ensures value { result ≡ self }
        ensures fits { self < 2 ^ 32 }
    {
        Spread {
            groups: self.groups,
        }
    }

    // Its groups. It tells too that the half has 32 bits.
    #[tactic(auto, using(crate::proofs::Spreading::half_below))]
    fn kept(self) -> u64
        ensures value { result ≡ spread self }
        ensures fits { self < 2 ^ 32 }
    {
        self.groups
    }

    // The same, and that they are nothing else.
    #[tactic(auto, using(crate::proofs::Spreading::spread_groups))]
    pub(crate) fn groups(self) -> u64
        ensures value { result ≡ spread self }
        ensures groups { Groups result }
        ensures fits { self < 2 ^ 32 }
    {
        self.kept()
    }

    // The half that has these groups.
    pub(crate) fn from_groups(groups: u64) -> Spread
        requires { spread (half_of groups) ≡ groups }
        ensures { result ≡ half_of groups }
    {
        Spread { groups }
    }
}

// The groups of both halves xored are those of the halves xored.
#[tactic(auto, using(crate::proofs::Spreading::spread_xor, crate::proofs::Spreading::half_joined))]
fn joined(left: Spread, right: Spread) -> u64
    ensures value { result ≡ spread (bit_xor left right) }
    ensures half { half_of result ≡ bit_xor left right }
{
    left.groups() ^ right.groups()
}

impl Word for Spread {
    ghost fits = { λ x. x < 2 ^ 32 };

    // A half has 32 bits, whatever keeps it.
    fn word(self) -> Spread {
        self.told()
    }
}

impl HalfWord for Spread {
    ghost word_of = { λ number. number };

    ghost number_of = { λ word. word };

    ghost faithful = { record { word_fits = λ n p. p; number_fits = λ w p. p; number_word = λ n p. refl; word_number = λ w p. refl } };

    fn from_number(number: u32) -> Spread {
        Spread::of(number)
    }

    fn to_number(self) -> u32 {
        self.half()
    }
}

// Exclusive or of halves that are spread.
#[derive(Clone, Copy)]
pub(crate) struct XorSpread;

#[tactic(auto, unfolding(crate::specs::internal::Spread::spread, crate::specs::internal::Spread::half_of))]
impl Group for XorSpread {
    type Word = Spread;

    const NEUTRAL: Spread = Spread { groups: 0 };

    ghost NEUTRAL = { 0 };

    ghost joined = { bit_xor };

    ghost inverted = { λ x. x };

    ghost lawful = { xor_lawful };

    fn join(left: Spread, right: Spread) -> Spread {
        Spread::from_groups(joined(left, right))
    }

    fn inverse(word: Spread) -> Spread {
        word
    }
}
