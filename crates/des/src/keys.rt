// The key schedule of DES.
ghost use Rattle.std.specs.Prelude.{◌≡◌, ◌≤◌, ◌<◌, ◌+◌, ◌*◌, ◌/◌, ◌%◌, ◌^◌, IsTrue, map, nat_le};
ghost use Rattle.std.specs.List.{list_all};
ghost use Rattle.std.specs.Int.{from_be_bytes, w64};
ghost use Rattle.selections.specs.Selections.{picked};
ghost use Rattle.des.specs.internal.Expansion.{all_chosen, choice_numbers, chosen_at, chosen_bits};
ghost use Rattle.des.specs.Keys.{rotated, chosen, words_from, round_words};
ghost use Rattle.des.specs.KeptWords.{word_of};
ghost use Rattle.des.specs.Tables.{choice_1};

use crate::initial::exchange;
use crate::rounding::DesRound;
use crate::tables::{CHOICE_2, SHIFTS};
use arrayvec::ArrayVec;
use networks::Schedule;

// The permuted choice PC-1. Three exchanges turn the bits of the key about a diagonal, so that a byte has the bits which stand
// at one place of all its bytes; the bytes then come in the reverse order, and the fifth is divided.
#[tactic(auto, using(crate::proofs::Choosing::parts_exchanged))]
fn choose_parts(key: u64) -> u64
    ensures { result ≡ picked 64 choice_1 key }
{
    let fours = exchange(key, 36, 0x0F0F_0F0F);
    let twos = exchange(fours, 18, 0x3333_0000_3333);
    let bytes = exchange(twos, 9, 0x55_0055_0055_0055);
    ((bytes & 0xFF) << 48)
        ^ ((bytes & 0xFF00) << 32)
        ^ ((bytes & 0xFF_0000) << 16)
        ^ (bytes & 0xF000_0000)
        ^ ((bytes >> 28) & 0x0FFF_FFF0)
        ^ ((bytes >> 24) & 0xF)
}

// For each four bits of the two parts of the key, what PC-2 chooses of them, as the boxes take it.
#[tactic(auto, unfolding(crate::specs::internal::Expansion::choice_numbers, crate::specs::internal::Expansion::chosen_bits))]
fn choices() -> &'static [u64; 224]
    ensures { result.now ≡ choice_numbers }
{
    &CHOICE_2
}

// What PC-2 chooses of four bits of the parts, those that have `place` fours behind them.
#[tactic(auto, using(crate::proofs::Choosing::choice_entry))]
fn chosen_at(parts: u64, place: u32) -> u64
    requires { place < 14 }
    ensures { result ≡ chosen_at parts place }
{
    let four = (parts >> (4 * place)) % 16;
    choices()[16 * place as usize + four as usize]
}

// PC-2 of two parts of 28 bits, as the boxes take it.
#[tactic(auto, using(crate::proofs::Choosing::word_chosen))]
fn choose(left: u64, right: u64) -> u64
    requires left { left < 2 ^ 28 }
    requires right { right < 2 ^ 28 }
    ensures { word_of result ≡ chosen left right }
{
    let parts = left * 0x1000_0000 + right;
    chosen_at(parts, 0)
        ^ chosen_at(parts, 1)
        ^ chosen_at(parts, 2)
        ^ chosen_at(parts, 3)
        ^ chosen_at(parts, 4)
        ^ chosen_at(parts, 5)
        ^ chosen_at(parts, 6)
        ^ chosen_at(parts, 7)
        ^ chosen_at(parts, 8)
        ^ chosen_at(parts, 9)
        ^ chosen_at(parts, 10)
        ^ chosen_at(parts, 11)
        ^ chosen_at(parts, 12)
        ^ chosen_at(parts, 13)
}

// 28 bits, rotated to the left.
fn rotated(part: u64, places: u32) -> u64
    requires within { part < 2 ^ 28 }
    requires few { places ≤ 28 }
    ensures { result ≡ rotated places part }
{
    let kept = 28 - places;
    (part % (1 << kept) << places) + (part >> kept)
}

// The same, and that there are 28 bits again.
#[tactic(auto, using(crate::proofs::Parts::rotated_below))]
fn rotate(part: u64, places: u32) -> u64
    requires within { part < 2 ^ 28 }
    requires few { places ≤ 28 }
    ensures value { result ≡ rotated places part }
    ensures within { result < 2 ^ 28 }
{
    rotated(part, places)
}

// The schedule of such words: sixteen at most are not too many.
fn schedule(kept: ArrayVec<u64, 16>) -> Schedule<DesRound, 16>
    ensures { result ≡ map word_of kept.items }
{
    Schedule::new(kept).unwrap()
}

// The round words of two parts of 28 bits, which rotate before each round.
#[tactic(auto, using(crate::proofs::Parts::each_few))]
fn words_from(parts: u64, shifts: &[u32; 16]) -> Schedule<DesRound, 16>
    requires within { parts < 2 ^ 56 }
    requires few { IsTrue (list_all (λ s. nat_le s 28) shifts.now) }
    ensures { result ≡ words_from (parts / 2 ^ 28) (parts % 2 ^ 28) shifts.now }
{
    let mut left = parts >> 28;
    let mut right = parts % 0x1000_0000;
    let mut kept = ArrayVec::new();
    for places in shifts.iter() {
        left = rotate(left, *places);
        right = rotate(right, *places);
        kept.push(choose(left, right));
    }
    schedule(kept)
}

// The sixteen round words of a key: PC-1 gives the two parts.
#[tactic(auto, unfolding(crate::specs::Keys::round_words))]
pub(crate) fn key_schedule(key: &[u8; 8]) -> Schedule<DesRound, 16>
    ensures { result ≡ round_words (from_be_bytes w64 key.now) }
{
    words_from(choose_parts(u64::from_be_bytes(*key)), &SHIFTS)
}
