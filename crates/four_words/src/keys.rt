// The words of a network's rounds, kept in the value itself: they are secrets.
ghost use Rattle.std.specs.Prelude.{◌≡◌, ◌≤◌, length, reverse};
ghost use Rattle.four_words.specs.Joining.{both};
ghost use Rattle.four_words.specs.Keying.{KeyFits, four_at, key_of, round_at};
ghost use Rattle.four_words.specs.Turning.{turned_key};

use crate::counts::Rounds;
use crate::joins::inverses;
use crate::turning::turned_round;
use crate::words::{BoxWords, RoundWords, Words};
use arrayvec::ArrayVec;
use groups::Group;
use std::marker::Model;

// At least one round, and seven at most after it.
#[derive(Drop)]
pub struct KeyWords {
    first: RoundWords,
    others: ArrayVec<RoundWords, 7>,
    closing: Words,
}

impl Model for KeyWords {
    ghost use Rattle.std.specs.Prelude.{◌≤◌, length};
    ghost use Rattle.four_words.specs.Keying.{Key, KeyFits};

    ghost Value = { Key };

    ghost view = { λ k. record { first = k.first; others = k.others.items; closing = k.closing } };

    ghost invariant = { λ k. (length k.others.items ≤ 7) × KeyFits (record { first = k.first; others = k.others.items; closing = k.closing }) };
}

// Four of the words, from a place on.
fn four_at(words: &[u16; 52], at: usize) -> Words
    requires room { at ≤ 48 }
    ensures { result ≡ four_at words.now at }
{
    Words {
        first: words[at],
        second: words[at + 1],
        third: words[at + 2],
        fourth: words[at + 3],
    }
}

// The six words of a round, counted from 0.
fn round_at(words: &[u16; 52], round: usize) -> RoundWords
    requires room { round ≤ 7 }
    ensures { result ≡ round_at words.now round }
{
    let at = 6 * round;
    RoundWords {
        joins: four_at(words, at),
        mixing: BoxWords {
            z5: words[at + 4],
            z6: words[at + 5],
        },
    }
}

// The rounds, last to first.
fn reversed(mut rounds: ArrayVec<RoundWords, 7>) -> ArrayVec<RoundWords, 7>
    ensures value { result.items ≡ reverse rounds.items }
    ensures len { length result.items ≡ length rounds.items }
{
    rounds.as_mut_slice().reverse();
    rounds
}

impl KeyWords {
    // The first words of the array, six for each round and then the closing words. It tells too which numbers of rounds
    // there are.
    #[tactic(auto, using(crate::proofs::Lists::others_more, crate::proofs::Lists::fits_none, crate::proofs::Lists::fits_more))]
    pub fn new(rounds: Rounds, words: &[u16; 52]) -> KeyWords
        ensures value { result ≡ key_of rounds words.now }
        ensures some { 1 ≤ rounds }
        ensures few { rounds ≤ 8 }
    {
        let count = rounds.count();
        let mut others = ArrayVec::new();
        for round in 1..count {
            others.push(round_at(words, round));
        }
        KeyWords {
            first: round_at(words, 0),
            others,
            closing: four_at(words, 6 * count),
        }
    }

    // The words of the first round.
    pub fn first(&self) -> &RoundWords
        ensures { result.now ≡ self.now.first }
    {
        &self.first
    }

    // The words of the other rounds in order.
    pub fn others(&self) -> &[RoundWords]
        ensures { result.now ≡ self.now.others }
    {
        self.others.as_slice()
    }

    // The closing words. It tells too what the type keeps, that the words which are joined are words of 16 bits: the
    // laws of the groups hold of such.
    pub fn closing(&self) -> &Words
        ensures value { result.now ≡ self.now.closing }
        ensures fits { KeyFits self.now }
    {
        &self.closing
    }

    // The words of the turned network.
    #[tactic(auto, using(crate::proofs::Progress::made_all))]
    pub(crate) fn turned<O: Group<Word = u16>, I: Group<Word = u16>>(&self) -> KeyWords
        ensures value { result ≡ turned_key (both O.Group I.Group) self.now }
        ensures fits { KeyFits self.now }
    {
        let mut others = ArrayVec::new();
        let mut mixing = self.first.mixing;
        for round in self.others.as_slice() {
            others.push(turned_round::<O, I>(mixing, round));
            mixing = round.mixing;
        }
        KeyWords {
            first: RoundWords {
                joins: inverses::<O, I>(self.closing),
                mixing,
            },
            others: reversed(others),
            closing: inverses::<O, I>(self.first.joins),
        }
    }
}
