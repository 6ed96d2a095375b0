// The words of a turned network.
ghost use Rattle.std.specs.Prelude.{◌≡◌};
ghost use Rattle.four_words.specs.Joining.{both};
ghost use Rattle.four_words.specs.Quarters.{Fit};
ghost use Rattle.four_words.specs.Turning.{turned_round};

use crate::joins::inverses;
use crate::words::{BoxWords, RoundWords};
use groups::Group;

// The inverses of z1, z3, z2, z4 of a round that is not the first, with the box words that belong to the round before it.
pub(crate) fn turned_round<O: Group<Word = u16>, I: Group<Word = u16>>(
    mixing: BoxWords,
    round: &RoundWords,
) -> RoundWords
    ensures value { result ≡ turned_round (both O.Group I.Group) mixing round.now }
    ensures fits { Fit result.joins }
{
    RoundWords {
        joins: inverses::<O, I>(round.joins.exchange()),
        mixing,
    }
}
