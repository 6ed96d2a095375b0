// Four words joined with four others, in two groups.
ghost use Rattle.std.specs.Prelude.{◌≡◌};
ghost use Rattle.four_words.specs.Joining.{both, inverses, joined};
ghost use Rattle.four_words.specs.Quarters.{Fit};

use crate::two::Two;
use crate::words::Words;
use groups::Group;

// Words 1 and 4 are joined in the outer group, words 2 and 3 in the inner. It tells too that the words have 16 bits, as every
// value of their type does.
#[inline(always)]
pub(crate) fn join<O: Group<Word = u16>, I: Group<Word = u16>>(words: Words, with: Words) -> Words
    ensures value { result ≡ joined (both O.Group I.Group) words with }
    ensures fits { Fit words }
{
    Words {
        first: O::join(words.first, with.first),
        second: I::join(words.second, with.second),
        third: I::join(words.third, with.third),
        fourth: O::join(words.fourth, with.fourth),
    }
}

// The inverse of two words joined, with each of them taken off it. A part of its own, so that a wrong order is refused where
// it is chosen, and not where a proof cites it.
fn parted<G: Group<Word = u16>>(first: u16, second: u16) -> Two<u16>
    ensures first { result.first ≡ G.Group.joined second (G.Group.inverted (G.Group.joined first second)) }
    ensures second { result.second ≡ G.Group.joined (G.Group.inverted (G.Group.joined first second)) first }
{
    let inverse = G::inverse(G::join(first, second));
    Two {
        first: G::join(second, inverse),
        second: G::join(inverse, first),
    }
}

// The inverses of two words, by one: an inverse may take many joins.
fn both_inverses<G: Group<Word = u16>>(first: u16, second: u16) -> Two<u16>
    ensures first { result.first ≡ G.Group.inverted first }
    ensures second { result.second ≡ G.Group.inverted second }
{
    parted::<G>(first, second)
}

// The inverse of each word in its group.
pub(crate) fn inverses<O: Group<Word = u16>, I: Group<Word = u16>>(words: Words) -> Words
    ensures value { result ≡ inverses (both O.Group I.Group) words }
    ensures fits { Fit result }
{
    let outer = both_inverses::<O>(words.first, words.fourth);
    Words {
        first: outer.first,
        second: I::inverse(words.second),
        third: I::inverse(words.third),
        fourth: outer.second,
    }
}
