// The bits of a word that a table names.
ghost use Rattle.std.specs.Prelude.{◌≡◌, ◌+◌, ◌*◌, ◌^◌, ◌%◌, ◌<◌, ◌≤◌, length};
ghost use Rattle.selections.specs.Selections.{bit, picked};
ghost use Rattle.selections.specs.internal.Wrapped.{picked_last};

// Bit `place` of a word of `width` bits, counted from 1 at the most significant.
#[tactic(auto, using(crate::proofs::Picked::shifted_out))]
fn bit(width: u32, word: u64, place: u8) -> u64
    ensures value { result ≡ bit width word place }
    ensures one { result < 2 }
{
    let down = width.saturating_sub(u32::from(place));
    if down < 64 { (word >> down) % 2 } else { 0 }
}

// The bits so far with one more below them.
fn push(bits: u64, bit: u64) -> u64
    ensures { result ≡ (2 * bits + bit) % 2 ^ 64 }
{
    bits.wrapping_mul(2).wrapping_add(bit)
}

// The bits one after another, in a word of 64.
#[tactic(auto, unfolding(crate::specs::internal::Wrapped::picked_last))]
fn gathered(width: u32, table: &[u8], word: u64) -> u64
    ensures { result ≡ picked_last width table.now word }
{
    table
        .iter()
        .fold(0, |bits, place| push(bits, bit(width, word, *place)))
}

// The bits of a word of `width` bits that a table names, in the table's order: all of them where there are no more than
// 64, else the last 64.
#[tactic(auto, using(crate::proofs::Picked::picked_wrapped, crate::proofs::Picked::picked_whole))]
pub fn select(width: u32, table: &[u8], word: u64) -> u64
    ensures value { result ≡ picked width table.now word % 2 ^ 64 }
    ensures whole { length table.now ≤ 64 → result ≡ picked width table.now word }
{
    gathered(width, table, word)
}
