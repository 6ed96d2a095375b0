// The round words of a Feistel network.
ghost use Rattle.std.specs.Prelude.{◌≡◌, ◌≤◌, ◌<◌, MatchOption, length, map, min, reverse, take};

use crate::functions::RoundFunction;
use arrayvec::ArrayVec;
use std::marker::{Model, PhantomData};

// At most `N` words, which is at most 64, kept in the value itself, in the form in which the round function takes them. It is no
// other name of the library's vector, so that nobody outside changes a word.
#[derive(Drop)]
pub struct Schedule<F: RoundFunction, const N: usize> {
    kept: ArrayVec<u64, N>,
    function: PhantomData<F>,
}

// A contract sees the list of the words, first round first.
impl<F: RoundFunction, const N: usize> Model for Schedule<F, N> {
    ghost use Rattle.std.specs.Prelude.{ℕ, ◌≤◌, List, length, map};

    ghost Value = { List ℕ };

    ghost view = { λ s. map F.word_of s.kept.items };

    ghost invariant = { λ s. length s.kept.items ≤ 64 };
}

fn first_items<const N: usize>(count: usize, words: [u64; N]) -> ArrayVec<u64, N>
    ensures value { result.items ≡ take (min count N) words.entry }
    ensures len { length result.items ≡ min count N }
{
    let mut kept = ArrayVec::from_array_in((), words);
    kept.truncate(count);
    kept
}

fn reverse_items<const N: usize>(kept: &mut ArrayVec<u64, N>)
    ensures value { kept.new.items ≡ reverse kept.old.items }
    ensures len { length kept.new.items ≡ length kept.old.items }
{
    kept.as_mut_slice().reverse();
}

impl<F: RoundFunction, const N: usize> Schedule<F, N> {
    // The words of all rounds, as they are kept. None where there is room for more than 64: the room is a number of the type,
    // so that no test is left in compiled code.
    pub fn new(kept: ArrayVec<u64, N>) -> Option<Schedule<F, N>>
        ensures { MatchOption result (64 < N) (λ schedule. schedule ≡ map F.RoundFunction.word_of kept.entry.items) }
    {
        if N <= 64 {
            Some(Schedule {
                kept,
                function: PhantomData,
            })
        } else {
            None
        }
    }

    // The first `count` of the words, or all where `count` is larger. The array is a whole table of words, and the count
    // says how much of it to take. None where the table is of more than 64.
    #[tactic(auto, using(crate::proofs::Kept::map_take))]
    pub fn first(count: usize, words: [u64; N]) -> Option<Schedule<F, N>>
        ensures { MatchOption result (64 < N) (λ schedule. schedule ≡ take (min count N) (map F.RoundFunction.word_of words.entry)) }
    {
        Schedule::new(first_items(count, words))
    }

    // The words as they are kept, first round first.
    pub fn kept(&self) -> &[u64]
        ensures value { map F.RoundFunction.word_of result.now ≡ self.now }
        ensures few { length self.now ≤ 64 }
    {
        self.kept.as_slice()
    }

    // The same words, last round first.
    #[tactic(auto, using(crate::proofs::Kept::map_reverse))]
    pub fn reverse(&mut self)
        ensures { self.new ≡ reverse self.old }
    {
        reverse_items(&mut self.kept);
    }
}
