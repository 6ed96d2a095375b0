// The product modulo 65,537 of words of 16 bits, of which 0 stands for 65,536.
ghost use Rattle.std.specs.Prelude.{◌≡◌, ℕ, ◌*◌, ◌%◌, ◌^◌, ◌<◌};
ghost use Rattle.products.specs.Products.{product, squared, stretched, inverse};
ghost use Rattle.products.specs.internal.Residues.{product_lawful};

use groups::Group;

#[derive(Clone, Copy)]
pub struct Product16;

// The word of a number modulo 65,537. 65,536 counts as -1, so it is the low half less the high half, and 1 more where
// that is below 0.
fn residue(number: u32) -> u16
    ensures { result ≡ number % 65537 % 65536 }
{
    let low = (number % 0x1_0000) as u16;
    let high = (number >> 16) as u16;
    low.wrapping_sub(high).wrapping_add(u16::from(low < high))
}

// The product of two words of which one is 0. That one stands for 65,536, which counts as -1, so the other is negated.
#[tactic(auto, using(crate::proofs::Rules::with_zero))]
fn negated(left: u16, right: u16) -> u16
    requires zero { left * right ≡ 0 }
    ensures { result ≡ product left right }
{
    1u16.wrapping_sub(left).wrapping_sub(right)
}

// One test serves both words: their product as numbers is 0 where one of them is 0, and nowhere else.
#[tactic(auto, using(crate::proofs::Rules::without_zero))]
fn product(left: u16, right: u16) -> u16
    ensures { result ≡ product left right }
{
    let number = u32::from(left) * u32::from(right);
    if number == 0 {
        negated(left, right)
    } else {
        residue(number)
    }
}

// A word squared as often as is said.
#[tactic(auto, using(crate::proofs::Squarings::squared_none, crate::proofs::Squarings::squared_more))]
fn squared(word: u16, times: u32) -> u16
    ensures { result ≡ squared times word }
{
    let mut square = word;
    for _ in 0..times {
        square = product(square, square);
    }
    square
}

// From the power 2^k - 1 of a word to its power 2^2k - 1.
fn stretched(power: u16, k: u32) -> u16
    ensures { result ≡ stretched k power }
{
    product(squared(power, k), power)
}

// The power 65,535.
#[tactic(auto, unfolding(crate::specs::Products::inverse))]
fn inverse(word: u16) -> u16
    ensures { result ≡ inverse word }
{
    stretched(stretched(stretched(stretched(word, 1), 2), 4), 8)
}

impl Group for Product16 {
    type Word = u16;

    const NEUTRAL: u16 = 1;

    ghost NEUTRAL = { 1 };

    ghost joined = { product };

    ghost inverted = { inverse };

    ghost lawful = { product_lawful };

    #[tactic(auto, using(crate::specs::internal::Residues::product_comm))]
    fn join(left: u16, right: u16) -> u16
        ensures value { result ≡ product left right }
        ensures commutes { result ≡ product right left }
    {
        product(left, right)
    }

    // No other word has a product of 1 with this one.
    #[tactic(auto, using(crate::proofs::Only::only_inverse))]
    fn inverse(word: u16) -> u16
        ensures value { result ≡ inverse word }
        ensures only { (other : ℕ) → other < 2 ^ 16 → product word other ≡ 1 → other ≡ result }
    {
        inverse(word)
    }
}
