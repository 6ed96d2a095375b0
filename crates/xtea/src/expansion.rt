// XTEA's round words, two for each cycle.
ghost use Rattle.std.specs.Prelude.{◌≡◌, ◌+◌, ◌%◌, ◌^◌};
ghost use Rattle.xtea.specs.Xtea.{sum_of, key_word, first_word, second_word, words_of};

use crate::cycles::Cycles;
use crate::rounding::XteaRound;
use arrayvec::ArrayVec;
use networks::Schedule;

// What the sum grows by in a cycle.
const DELTA: u32 = 0x9E37_79B9;

// The sum of `count` deltas.
fn sum_of(count: u32) -> u32
    ensures { result ≡ sum_of count }
{
    count.wrapping_mul(DELTA)
}

// The word of the key that the low two bits of a number choose, most significant byte first.
fn key_word(key: &[u8; 16], i: u32) -> u32
    ensures { result ≡ key_word key.now (i % 4) }
{
    let (words, _) = key.as_chunks::<4>();
    u32::from_be_bytes(words[(i % 4) as usize])
}

// A sum, and the word of the key that a number chooses.
fn keyed(key: &[u8; 16], sum: u32, i: u32) -> u64
    ensures { result ≡ (sum + key_word key.now (i % 4)) % 2 ^ 32 }
{
    u64::from(sum.wrapping_add(key_word(key, i)))
}

// The round words of a cycle, counted from 0.
fn first_word(key: &[u8; 16], cycle: u32) -> u64
    ensures { result ≡ first_word key.now cycle }
{
    let sum = sum_of(cycle);
    keyed(key, sum, sum)
}

fn second_word(key: &[u8; 16], cycle: u32) -> u64
    ensures { result ≡ second_word key.now cycle }
{
    let sum = sum_of(cycle.wrapping_add(1));
    keyed(key, sum, sum >> 11)
}

// The round words of every cycle in order.
#[tactic(auto, using(crate::proofs::Words::words_none, crate::proofs::Words::words_more))]
pub(crate) fn key_schedule(key: &[u8; 16], cycles: Cycles) -> Schedule<XteaRound, 64>
    ensures { result ≡ words_of key.now cycles }
{
    let mut words = ArrayVec::new();
    for cycle in 0..cycles.count() as u32 {
        words.push(first_word(key, cycle));
        words.push(second_word(key, cycle));
    }
    Schedule::new(words).unwrap()
}
