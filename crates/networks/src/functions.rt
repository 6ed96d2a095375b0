// Round functions: what a Feistel network joins to a half.
ghost use Rattle.std.specs.Prelude.{◌≡◌, ℕ};

use groups::Word;

// One fixed function of a half and a 64-bit round word. It may hold a key; it owes nothing but words.
pub trait RoundFunction {
    type Half: Word;

    ghost value: { Self → Self.Half → ℕ → Self.Half };

    // the round word that a kept one stands for: a schedule may keep them in the form that is quickest to use
    ghost word_of: { ℕ → ℕ } = { λ kept. kept };

    fn mix(&self, half: Self::Half, kept: u64) -> Self::Half
        ensures { result ≡ value self.now half (word_of kept) };

    // The same, by what is quickest for one of several halves that are worked on side by side.
    #[inline(always)]
    fn mix_beside(&self, half: Self::Half, kept: u64) -> Self::Half
        ensures { result ≡ value self.now half (word_of kept) }
    {
        self.mix(half, kept)
    }

    // the values are words, which says no more than their type
    ghost within: { (f : Self) (half : Self.Half) (word : ℕ) → Self.Half.Word.fits (value f half word) };
}
