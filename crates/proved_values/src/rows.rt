// The rows of the table: each is a value of its family's definition, and the one that the table has.
ghost use Rattle.std.specs.Prelude.{◌≡◌, map};
ghost use Rattle.std.specs.List.{range_with_len};
ghost use Rattle.std.specs.Int.{from_be_bytes, w128};
ghost use Rattle.four_words.specs.Keying.{key_of};
ghost use Rattle.four_words.specs.Turning.{turned_key};
ghost use Rattle.idea.specs.Keys.{key_word, key_words};
ghost use Rattle.idea.specs.Networks.{groups};
ghost use Rattle.proved_values.specs.Values.{table, worked_out};

use crate::closing::empty_file;
use crate::sealing;
use ciphers::Cipher;
use groups::Group;
use idea::{Idea, Rounds, Words, key_schedule};
use products::Product16;
use traces::Label;
use xtea::Cycles;

const IDEA_KEY: [u8; 16] = [0, 1, 0, 2, 0, 3, 0, 4, 0, 5, 0, 6, 0, 7, 0, 8];

const LABEL: Label = Label {
    axis: 1,
    serial: 5,
    number: 9,
};

// 65,538 less 65,537.
#[tactic(auto, unfolding(products::specs::Products::product))]
pub(crate) fn two_by_32769() -> u16
    ensures row { result ≡ table.two_by_32769 }
    ensures defined { result ≡ worked_out.two_by_32769 }
{
    Product16::join(2, 32_769)
}

// 65,536 by itself, the square of -1.
#[tactic(auto, unfolding(products::specs::Products::product))]
pub(crate) fn zero_by_zero() -> u16
    ensures row { result ≡ table.zero_by_zero }
    ensures defined { result ≡ worked_out.zero_by_zero }
{
    Product16::join(0, 0)
}

// The left halves add up to 2^32, which is 0.
pub(crate) fn wadd_left_wraps() -> u64
    ensures row { result ≡ table.wadd_left_wraps }
    ensures defined { result ≡ worked_out.wadd_left_wraps }
{
    sealing::wadd(
        &[0xFF, 0xFF, 0xFF, 0xFF, 0x00, 0x00, 0x00, 0x01],
        0x0000_0001_0000_0002,
    )
}

// The right halves add up to 2^32 + 1, and nothing is carried to the left ones.
pub(crate) fn wadd_without_carry() -> u64
    ensures row { result ≡ table.wadd_without_carry }
    ensures defined { result ≡ worked_out.wadd_without_carry }
{
    sealing::wadd(
        &[0x00, 0x00, 0x00, 0x01, 0xFF, 0xFF, 0xFF, 0xFF],
        0x0000_0002_0000_0002,
    )
}

// One cycle.
#[tactic(auto, unfolding(xtea::specs::Xtea::cycled))]
pub(crate) fn xtea_cycle_of_zeros() -> u64
    ensures row { result ≡ table.xtea_cycle_of_zeros }
    ensures defined { result ≡ worked_out.xtea_cycle_of_zeros }
{
    sealing::xtea(&[0; 16], Cycles::one(), 0)
}

// S1 is box 1 of eight.
#[tactic(auto, unfolding(des::specs::Boxes::boxed))]
pub(crate) fn s1_of_011011() -> Option<u8>
    ensures row { result ≡ table.s1_of_011011 }
    ensures defined { result ≡ worked_out.s1_of_011011 }
{
    des::s_box(1, 0b01_1011)
}

// An example that is often worked out by hand.
#[tactic(auto, unfolding(des::specs::Boxes::boxed, des::specs::Des::f, des::specs::Des::through, des::specs::Keys::chosen, des::specs::Keys::words_from, des::specs::Keys::round_words))]
pub(crate) fn des_example() -> u64
    ensures row { result ≡ table.des_example }
    ensures defined { result ≡ worked_out.des_example }
{
    sealing::des(
        &[0x13, 0x34, 0x57, 0x79, 0x9B, 0xBC, 0xDF, 0xF1],
        0x0123_4567_89AB_CDEF,
    )
}

// Words 9 to 16 of a key, which are the first that it gives once it is rotated.
#[tactic(auto, using(idea::proofs::Passes::word_at))]
fn second_eight(key: &[u8; 16]) -> [u16; 8]
    ensures { result ≡ map (key_word (from_be_bytes w128 key.now)) (range_with_len 8 8) }
{
    let words = key_schedule(key);
    [
        words[8], words[9], words[10], words[11], words[12], words[13], words[14], words[15],
    ]
}

#[tactic(auto, unfolding(idea::specs::Keys::key_word))]
pub(crate) fn idea_second_eight() -> [u16; 8]
    ensures row { result ≡ table.idea_second_eight }
    ensures defined { result ≡ worked_out.idea_second_eight }
{
    second_eight(&IDEA_KEY)
}

// The closing words of a key's turned network of eight rounds.
fn turned_closing(key: &[u8; 16]) -> Words
    ensures { result ≡ (turned_key groups (key_of 8 (key_words (from_be_bytes w128 key.now)))).closing }
{
    let mut idea = Idea::new(key, Rounds::full());
    idea.turn();
    *idea.closing()
}

#[tactic(auto, unfolding(idea::specs::Keys::key_word, idea::specs::Keys::key_words, products::specs::Products::inverse, products::specs::Products::product, products::specs::Products::squared))]
pub(crate) fn idea_turned_closing() -> Words
    ensures row { result ≡ table.idea_turned_closing }
    ensures defined { result ≡ worked_out.idea_turned_closing }
{
    turned_closing(&IDEA_KEY)
}

#[tactic(auto, unfolding(idea::specs::Idea::rounds, idea::specs::Keys::key_word, products::specs::Products::product))]
pub(crate) fn idea_example() -> u64
    ensures row { result ≡ table.idea_example }
    ensures defined { result ≡ worked_out.idea_example }
{
    sealing::idea(&IDEA_KEY, Rounds::full(), 0x0000_0001_0002_0003)
}

// A file begins with its header.
pub(crate) fn header() -> u64
    ensures row { result ≡ table.header }
    ensures defined { result ≡ worked_out.header }
{
    let file = empty_file(LABEL);
    u64::from_be_bytes(*file[..8].as_array().unwrap())
}

// A file ends with its body.
pub(crate) fn padded_nothing() -> [u8; 8]
    ensures row { result ≡ table.padded_nothing }
    ensures defined { result ≡ worked_out.padded_nothing }
{
    let file = empty_file(LABEL);
    *file[16..].as_array().unwrap()
}
