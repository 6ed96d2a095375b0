// The words of a description, told with their places.
ghost use Rattle.std.specs.Prelude.{◌≡◌, ◌==◌, ◌≤◌, ◌+◌, length, IfSome, MatchOption, not};
ghost use Rattle.std.specs.Iterator.{YieldsFirst, item_count};
ghost use Rattle.std.specs.List.{position, position_or_len};
ghost use Rattle.plans.specs.Words.{words_from};
ghost use Rattle.plans.specs.internal.FirstWord.{Begins, Wordless};

use std::marker::Model;

// A word, and where it begins in its description.
#[derive(Drop)]
pub(crate) struct Word<'a> {
    pub place: usize,
    pub bytes: &'a [u8],
}

impl<'a> Model for Word<'a> {
    ghost use Rattle.std.specs.Prelude.{◌+◌, ◌^◌, ◌<◌, length};
    ghost use Rattle.plans.specs.Words.{Placed};

    ghost Value = { Placed };

    ghost view = { λ w. record { place = w.place; bytes = w.bytes.now } };

    ghost invariant = { λ w. w.place + length w.bytes.now < 2 ^ 64 };
}

// The words of a description from a place on.
#[derive(Drop)]
pub(crate) struct Words<'a> {
    description: &'a [u8],
    place: usize,
}

impl<'a> Model for Words<'a> {
    ghost use Rattle.std.specs.Prelude.{List, ◌≤◌, drop, length};
    ghost use Rattle.plans.specs.Words.{Placed, words_from};

    ghost Value = { List Placed };

    ghost view = { λ w. words_from w.place (drop w.place w.description.now) };

    ghost invariant = { λ w. w.place ≤ length w.description.now };
}

// Where the first byte that is no space stands.
fn first_other(text: &[u8]) -> Option<usize>
    ensures { result ≡ position (λ b. not (b == 32)) text.now }
{
    text.iter().position(|b| *b != b' ')
}

// Where the first space stands.
fn first_space(text: &[u8]) -> Option<usize>
    ensures { result ≡ position (λ b. b == 32) text.now }
{
    text.iter().position(|b| *b == b' ')
}

// How many bytes stand before the first space or the end.
#[tactic(auto, using(crate::proofs::Cutting::until_space, crate::proofs::Cutting::within))]
fn word_length(text: &[u8]) -> usize
    ensures value { result ≡ position_or_len (λ b. b == 32) text.now }
    ensures fits { result ≤ length text.now }
{
    first_space(text).unwrap_or(text.len())
}

// The first word of a text, with the number of spaces before it.
#[tactic(auto, using(crate::proofs::Cutting::no_word, crate::proofs::Cutting::next_word))]
fn first_word(text: &[u8]) -> Option<(usize, &[u8])>
    ensures first { MatchOption result (Wordless text.now) (λ r. Begins text.now r.0 r.1.now) }
    ensures fits { IfSome result (λ r. r.0 + length r.1.now ≤ length text.now) }
{
    let spaces = first_other(text)?;
    let (_, text) = text.split_at(spaces);
    Some((spaces, &text[..word_length(text)]))
}

impl<'a> Words<'a> {
    // All words of a description.
    pub fn new(description: &'a [u8]) -> Words<'a>
        ensures { result ≡ words_from 0 description.now }
    {
        Words {
            description,
            place: 0,
        }
    }
}

impl<'a> Iterator for Words<'a> {
    type Item = Word<'a>;

    ghost next_gives = { YieldsFirst (λ words. words) };

    ghost remaining = { item_count (λ words. words) };

    fn next(&mut self) -> Option<Word<'a>> {
        let (spaces, bytes) = first_word(&self.description[self.place..])?;
        let place = self.place + spaces;
        self.place = place + bytes.len();
        Some(Word { place, bytes })
    }
}
