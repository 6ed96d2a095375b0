// DES's round function, by one table for the boxes, P and the E of the next round.
ghost use Rattle.std.specs.Prelude.{◌≡◌, ◌+◌, ◌*◌, ◌^◌, ◌%◌, ◌<◌, bit_xor};
ghost use Rattle.selections.proofs.Picked.{picked_below};
ghost use Rattle.des.specs.Tables.{permutation};
ghost use Rattle.des.specs.Des.{group, f};
ghost use Rattle.des.specs.internal.Merged.{merged_numbers, mixed, placed, share, shares};
ghost use Rattle.des.specs.KeptWords.{byte_of, word_of};
ghost use Rattle.des.specs.internal.Spread.{Groups, half_of, spread};

use crate::spread::{GROUPS, Spread};
use crate::tables::MERGED;
use networks::RoundFunction;

// For each box and each six bits, what P makes of the box's four bits in their place, as the boxes of the next round take it.
#[tactic(auto, unfolding(crate::specs::internal::Merged::merged_numbers, crate::specs::internal::Merged::placed, crate::specs::Boxes::boxed, crate::specs::internal::Spread::spread))]
fn merged() -> &'static [u64; 512]
    ensures { result.now ≡ merged_numbers }
{
    &MERGED
}

// What P makes of the four bits of box `index + 1`.
#[tactic(auto, using(crate::proofs::Merged::merged_entry))]
fn placed(index: usize, six: usize) -> u64
    requires eight { index < 8 }
    requires six { six < 64 }
    ensures { result ≡ spread (placed index six) }
{
    merged()[64 * index + six]
}

// The byte in which box `index + 1` has its group, from the least significant on.
fn byte_of(index: u32) -> u32
    requires { index < 8 }
    ensures value { result ≡ byte_of index }
    ensures few { result < 8 }
{
    (7 - index) / 2 + 4 * (1 - index % 2)
}

// What box `index + 1` takes. Nothing is left to mask off, since each byte is a group.
#[tactic(auto, using(crate::proofs::Merged::group_of_byte))]
fn box_input(groups: u64, index: u32) -> usize
    requires eight { index < 8 }
    requires groups { Groups groups }
    ensures value { result ≡ group (word_of groups) index }
    ensures six { result < 64 }
{
    ((groups >> (8 * byte_of(index))) % 256) as usize
}

// What box `index + 1` adds to the round function.
#[inline(always)]
fn share(groups: u64, index: u32) -> u64
    requires eight { index < 8 }
    requires groups { Groups groups }
    ensures { result ≡ spread (share (word_of groups) index) }
{
    placed(index as usize, box_input(groups, index))
}

// What two boxes add, 2 `index` + 2 and the one before it. No bit is set in both, so that or is xor: a tree of both has fewer
// steps one after another than a chain of xors, which is what a compiler makes of a tree of xors.
#[inline(always)]
#[tactic(auto, using(crate::proofs::Apart::joined))]
fn both(groups: u64, index: u32) -> u64
    requires four { index < 4 }
    requires groups { Groups groups }
    ensures { result ≡ bit_xor (spread (share (word_of groups) (2 * index + 1))) (spread (share (word_of groups) (2 * index))) }
{
    share(groups, 2 * index + 1) | share(groups, 2 * index)
}

// What all boxes add, each spread, in few steps one after another.
#[inline(always)]
#[tactic(auto, using(crate::proofs::Merged::pairs_spread))]
fn added(groups: u64) -> u64
    requires { Groups groups }
    ensures { result ≡ spread (shares (word_of groups)) }
{
    both(groups, 3) ^ both(groups, 2) ^ both(groups, 1) ^ both(groups, 0)
}

// The same in few steps altogether.
#[inline(always)]
#[tactic(auto, using(crate::proofs::Merged::shares_spread))]
fn added_in_turn(groups: u64) -> u64
    requires { Groups groups }
    ensures { result ≡ spread (shares (word_of groups)) }
{
    share(groups, 7)
        ^ share(groups, 6)
        ^ share(groups, 5)
        ^ share(groups, 4)
        ^ share(groups, 3)
        ^ share(groups, 2)
        ^ share(groups, 1)
        ^ share(groups, 0)
}

// The half of what all boxes add.
#[inline(always)]
#[tactic(auto, using(crate::proofs::Merged::shares_back))]
fn half_added(added: u64, groups: u64) -> Spread
    requires { added ≡ spread (shares (word_of groups)) }
    ensures { result ≡ shares (word_of groups) }
{
    Spread::from_groups(added)
}

// What the boxes take: the groups of a half, xored with those of a round word.
#[tactic(auto, using(crate::proofs::Merged::groups_mixed, crate::proofs::Merged::word_mixed))]
fn mixed(half: Spread, kept: u64) -> u64
    ensures groups { Groups result }
    ensures word { word_of result ≡ mixed half (word_of kept) }
{
    half.groups() ^ (kept & GROUPS)
}

#[derive(Clone, Copy)]
pub(crate) struct DesRound;

impl RoundFunction for DesRound {
    type Half = Spread;

    ghost value = { λ _ half word. f half word };

    ghost word_of = { word_of };

    ghost within = { λ _ half word. unfold f in picked_below 32 _ permutation };

    #[inline(always)]
    #[tactic(auto, using(crate::proofs::Merged::f_shares))]
    fn mix(&self, half: Spread, kept: u64) -> Spread {
        let groups = mixed(half, kept);
        half_added(added(groups), groups)
    }

    // While one half waits for its next step, another goes on: then fewer steps altogether are quicker than fewer in a row.
    #[inline(always)]
    #[tactic(auto, using(crate::proofs::Merged::f_shares))]
    fn mix_beside(&self, half: Spread, kept: u64) -> Spread {
        let groups = mixed(half, kept);
        half_added(added_in_turn(groups), groups)
    }
}
