// IDEA's key schedule.
ghost use Rattle.std.specs.Prelude.{◌≡◌, ◌<◌};
ghost use Rattle.std.specs.Int.{from_be_bytes, w128};
ghost use Rattle.idea.specs.Keys.{key_word, key_words};

// A word of the key: there are eight to each 25 bits that it rotates left.
#[tactic(auto, unfolding(crate::specs::Keys::key_word))]
fn key_word(key: u128, i: usize) -> u16
    requires within { i < 52 }
    ensures { result ≡ key_word key i }
{
    let rotated = key.rotate_left(25 * (i / 8) as u32);
    ((rotated >> (112 - 16 * (i % 8))) % 0x1_0000) as u16
}

// The words of eight rounds and the closing words. The loop for eight words of one rotation is short enough to be unrolled,
// and then each of them is a shift by a constant.
#[tactic(auto, using(four_words::proofs::Filling::filled_more, crate::proofs::Filling::filled))]
fn key_words(key: u128) -> [u16; 52]
    ensures { result ≡ key_words key }
{
    let mut words = [0; 52];
    for turn in 0..6 {
        for place in 0..8 {
            let i = 8 * turn + place;
            words[i] = key_word(key, i);
        }
    }
    for i in 48..52 {
        words[i] = key_word(key, i);
    }
    words
}

// The words of a key of sixteen bytes, the first byte most significant: those of eight rounds and four closing words.
pub fn key_schedule(key: &[u8; 16]) -> [u16; 52]
    ensures { result ≡ key_words (from_be_bytes w128 key.now) }
{
    key_words(u128::from_be_bytes(*key))
}
