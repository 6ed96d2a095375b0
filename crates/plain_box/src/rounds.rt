// A description as a number of rounds, and a key as the words of the rounds.
ghost use Rattle.std.specs.Prelude.{◌≡◌};
ghost use Rattle.four_words.specs.Keying.{key_of};
ghost use Rattle.plain_box.specs.Naming.{rounds_of};
ghost use Rattle.plain_box.specs.Plainest.{ring_word, ring_words};

use four_words::{KeyWords, Rounds};

// The rounds that a description asks for.
pub fn rounds_named(description: &[u8]) -> Option<Rounds>
    ensures { result ≡ rounds_of description.now }
{
    match description.strip_prefix(b"plain:")? {
        [digit @ b'1'..=b'8'] => Rounds::new(usize::from(*digit - b'0')),
        _ => None,
    }
}

// A word of the ring, counted from 0.
fn ring_word(key: &[u8; 16], place: usize) -> u16
    ensures { result ≡ ring_word key.now place }
{
    let (words, _) = key.as_chunks::<2>();
    u16::from_be_bytes(words[place % 8])
}

// The words of the ring as far as the longest network takes them.
#[tactic(auto, using(four_words::proofs::Filling::filled_more, crate::proofs::Filling::filled))]
fn ring_words(key: &[u8; 16]) -> [u16; 52]
    ensures { result ≡ ring_words key.now }
{
    let mut words = [0; 52];
    for place in 0..52 {
        words[place] = ring_word(key, place);
    }
    words
}

// The words of some rounds and the closing words.
pub fn key_words(rounds: Rounds, key: &[u8; 16]) -> KeyWords
    ensures { result ≡ key_of rounds (ring_words key.now) }
{
    KeyWords::new(rounds, &ring_words(key))
}
