// What a group of words is, with the laws that each implementation owes.
ghost use Rattle.std.specs.Prelude.{◌≡◌};
ghost use Rattle.groups.specs.Laws.{Lawful};

use crate::words::Word;

pub trait Group {
    type Word: Word;

    const NEUTRAL: Self::Word;

    // the meaning of the constant, of `join` and of `inverse`
    ghost NEUTRAL: { Self.Word };

    ghost joined: { Self.Word → Self.Word → Self.Word };

    ghost inverted: { Self.Word → Self.Word };

    fn join(left: Self::Word, right: Self::Word) -> Self::Word
        ensures { result ≡ joined left right };

    fn inverse(word: Self::Word) -> Self::Word
        ensures { result ≡ inverted word };

    // what each implementation shows
    ghost lawful: { Lawful Self.Word.Word.fits NEUTRAL joined inverted };
}
