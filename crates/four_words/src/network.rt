// Four-word networks over any two groups and mixing box.
ghost use Rattle.std.specs.Prelude.{◌≡◌};
ghost use Rattle.networks.specs.Fours.{each};
ghost use Rattle.networks.specs.Inverses.{Inverses};
ghost use Rattle.four_words.specs.Joining.{both};
ghost use Rattle.four_words.specs.Keying.{KeyFits};
ghost use Rattle.four_words.specs.Networks.{network};
ghost use Rattle.four_words.specs.Passing.{added, mixed, ran, round, turned, unran, unround};
ghost use Rattle.four_words.specs.Quarters.{Fit, exchanged};
ghost use Rattle.four_words.specs.Turning.{TurnedWords};
ghost use Rattle.four_words.specs.internal.Abreast.{both_of, ran_abreast};

use crate::boxes::MixingBox;
use crate::joins::{inverses, join};
use crate::keys::KeyWords;
use crate::two::Two;
use crate::unpacked::Unpacked;
use crate::words::{BoxWords, Mixed, RoundWords, Words};
use groups::Group;
use networks::{Four, WaysBack};
use std::marker::PhantomData;

// An outer and an inner group, a mixing box, and the words of the rounds (the structure of Lai and Massey).
// It has no model: a model's value can hold no function, and a network's does.
#[derive(Drop)]
pub struct FourWord<O: Group<Word = u16>, I: Group<Word = u16>, B: MixingBox> {
    mixing: B,
    key: KeyWords,
    outer: PhantomData<O>,
    inner: PhantomData<I>,
}

// t goes to words 1 and 3, s to words 2 and 4.
fn add(words: Words, mixed: Mixed) -> Words
    ensures { result ≡ added words mixed }
{
    Words {
        first: words.first ^ mixed.t,
        second: words.second ^ mixed.s,
        third: words.third ^ mixed.t,
        fourth: words.fourth ^ mixed.s,
    }
}

impl<O: Group<Word = u16>, I: Group<Word = u16>, B: MixingBox> FourWord<O, I, B> {
    pub fn new(mixing: B, key: KeyWords) -> Self
        ensures mixing { result.mixing ≡ mixing }
        ensures key { result.key ≡ key }
    {
        FourWord {
            mixing,
            key,
            outer: PhantomData,
            inner: PhantomData,
        }
    }

    // The words of the rounds.
    pub fn key(&self) -> &KeyWords
        ensures { result.now ≡ self.now.key }
    {
        &self.key
    }

    // The box is called with word 1 xor word 3 and word 2 xor word 4.
    #[inline(always)]
    fn mix(&self, with: BoxWords, words: Words) -> Words
        ensures { result ≡ mixed (network O.Group I.Group B.MixingBox self.now) with words }
    {
        let p = words.first ^ words.third;
        let q = words.second ^ words.fourth;
        add(words, self.mixing.mix(p, q, with))
    }

    #[inline(always)]
    fn round(&self, with: &RoundWords, words: Words) -> Words
        ensures value { result ≡ round (network O.Group I.Group B.MixingBox self.now) with.now words }
        ensures fits { Fit words }
    {
        self.mix(with.mixing, join::<O, I>(words, with.joins))
    }

    fn unround(&self, with: &RoundWords, words: Words) -> Words
        ensures { result ≡ unround (network O.Group I.Group B.MixingBox self.now) with.now words }
    {
        join::<O, I>(self.mix(with.mixing, words), inverses::<O, I>(with.joins))
    }

    // A round that is not the first. Words 2 and 3 change places before it.
    #[inline(always)]
    fn later(&self, with: &RoundWords, words: Unpacked) -> Unpacked
        ensures { result ≡ round (network O.Group I.Group B.MixingBox self.now) with.now (exchanged words) }
    {
        Unpacked::new(self.round(with, words.words().exchange()))
    }

    // The rounds, and then the closing words. A part of its own, as are `undone` and `reverse`, so that a wrong step is
    // refused where it is taken, and not where a proof cites it. It tells too that the words which it is given have 16 bits,
    // and so have those that it joins.
    fn ran(&self, words: Words) -> Words
        ensures value { result ≡ ran (network O.Group I.Group B.MixingBox self.now) words }
        ensures words { Fit words }
        ensures fits { KeyFits self.now.key }
    {
        let first = Unpacked::new(self.round(self.key.first(), words));
        let passed = self
            .key
            .others()
            .iter()
            .fold(first, |state, with| self.later(with, state));
        join::<O, I>(passed.words(), *self.key.closing())
    }

    #[inline(always)]
    fn first_two(&self, words: Two<Words>) -> Two<Unpacked>
        ensures { result ≡ both_of (round (network O.Group I.Group B.MixingBox self.now) self.now.key.first) words }
    {
        let with = self.key.first();
        Two {
            first: Unpacked::new(self.round(with, words.first)),
            second: Unpacked::new(self.round(with, words.second)),
        }
    }

    #[inline(always)]
    fn later_two(&self, with: &RoundWords, words: Two<Unpacked>) -> Two<Unpacked>
        ensures { result ≡ both_of (λ w. round (network O.Group I.Group B.MixingBox self.now) with.now (exchanged w)) words }
    {
        Two {
            first: self.later(with, words.first),
            second: self.later(with, words.second),
        }
    }

    // The rounds, each of them of both before the next, and then the closing words.
    fn ran_abreast(&self, words: Two<Words>) -> Two<Words>
        ensures { result ≡ ran_abreast (network O.Group I.Group B.MixingBox self.now) words }
    {
        let passed = self.key.others().iter().fold(
            self.first_two(words),
            |state, with| self.later_two(with, state),
        );
        let closing = *self.key.closing();
        Two {
            first: join::<O, I>(passed.first.words(), closing),
            second: join::<O, I>(passed.second.words(), closing),
        }
    }

    fn ran_two(&self, words: Two<Words>) -> Two<Words>
        ensures { result ≡ both_of (ran (network O.Group I.Group B.MixingBox self.now)) words }
    {
        self.ran_abreast(words)
    }

    // The closing words taken back, and then the rounds, the last one first.
    pub(crate) fn undone(&self, words: Words) -> Words
        ensures value { result ≡ unran (network O.Group I.Group B.MixingBox self.now) words }
        ensures words { Fit words }
        ensures fits { KeyFits self.now.key }
    {
        let last = join::<O, I>(words, inverses::<O, I>(*self.key.closing()));
        let first = self
            .key
            .others()
            .iter()
            .rev()
            .fold(last, |state, with| self.unround(with, state).exchange());
        self.unround(self.key.first(), first)
    }

    // What the network makes of four words. The turned network takes it back.
    pub fn run(&self, words: Words) -> Words
        ensures value { result ≡ ran (network O.Group I.Group B.MixingBox self.now) words }
        ensures back { ran (turned (network O.Group I.Group B.MixingBox self.now)) result ≡ words }
    {
        self.ran(words)
    }

    // Four times four words, each run by itself.
    pub fn run_four(&self, words: Four<Words>) -> Four<Words>
        ensures { result ≡ each (ran (network O.Group I.Group B.MixingBox self.now)) words }
    {
        let front = self.ran_two(Two {
            first: words.first,
            second: words.second,
        });
        let back = self.ran_two(Two {
            first: words.third,
            second: words.fourth,
        });
        Four {
            first: front.first,
            second: front.second,
            third: back.first,
            fourth: back.second,
        }
    }

    // The way back that undoes the rounds, to what the network makes the words of. It makes of any words what the turned
    // network makes of them.
    pub fn undo(&self, words: Words) -> Words
        ensures value { result ≡ unran (network O.Group I.Group B.MixingBox self.now) words }
        ensures turned { result ≡ ran (turned (network O.Group I.Group B.MixingBox self.now)) words }
        ensures back { ran (network O.Group I.Group B.MixingBox self.now) result ≡ words }
    {
        self.undone(words)
    }

    // The words of the rounds become those of the turned network.
    fn reverse(&mut self)
        ensures value { network O.Group I.Group B.MixingBox self.new ≡ turned (network O.Group I.Group B.MixingBox self.old) }
        ensures fits { KeyFits self.old.key }
    {
        self.key = self.key.turned::<O, I>();
    }

    // Becomes the inverse network, in place.
    pub fn turn(&mut self)
        ensures network { network O.Group I.Group B.MixingBox self.new ≡ turned (network O.Group I.Group B.MixingBox self.old) }
        ensures words { TurnedWords (both O.Group I.Group) self.old.key self.new.key }
        ensures again { turned (network O.Group I.Group B.MixingBox self.new) ≡ network O.Group I.Group B.MixingBox self.old }
        ensures inverse { Inverses Fit (ran (network O.Group I.Group B.MixingBox self.old)) (ran (network O.Group I.Group B.MixingBox self.new)) }
    {
        self.reverse();
    }

    // Both ways back of any four words, the rounds undone and the turned network run: they agree, and lead to what the network
    // makes the words of. The network is as it was afterwards.
    pub fn ways_back(&mut self, words: Words) -> WaysBack<Words>
        ensures undone { result.undone ≡ unran (network O.Group I.Group B.MixingBox self.old) words }
        ensures turned { result.turned ≡ ran (turned (network O.Group I.Group B.MixingBox self.old)) words }
        ensures agree { result.undone ≡ result.turned }
        ensures back { ran (network O.Group I.Group B.MixingBox self.old) result.undone ≡ words }
        ensures same { network O.Group I.Group B.MixingBox self.new ≡ network O.Group I.Group B.MixingBox self.old }
    {
        let undone = self.undo(words);
        self.turn();
        let turned = self.run(words);
        self.turn();
        WaysBack { undone, turned }
    }
}
