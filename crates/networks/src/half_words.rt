// Words that are half a block.
ghost use Rattle.std.specs.Prelude.{ℕ, ◌≡◌, refl};
ghost use Rattle.networks.specs.HalfWords.{Faithful};

use groups::Word;

// A number of 32 bits, in the form in which a network works on it.
pub trait HalfWord: Word {
    ghost word_of: { ℕ → Self };

    ghost number_of: { Self → ℕ };

    fn from_number(number: u32) -> Self
        ensures { result ≡ word_of number };

    fn to_number(self) -> u32
        ensures { result ≡ number_of self };

    // what each implementation shows
    ghost faithful: { Faithful Self.Word.fits word_of number_of };
}

impl HalfWord for u32 {
    ghost word_of = { λ number. number };

    ghost number_of = { λ word. word };

    ghost faithful = { record { word_fits = λ n p. p; number_fits = λ w p. p; number_word = λ n p. refl; word_number = λ w p. refl } };

    fn from_number(number: u32) -> u32 {
        number
    }

    fn to_number(self) -> u32 {
        self
    }
}
