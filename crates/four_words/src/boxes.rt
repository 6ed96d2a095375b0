// Mixing boxes: what a four-word network mixes its words with, such as IDEA's multiplication-addition structure.
ghost use Rattle.std.specs.Prelude.{◌≡◌, ◌<◌, ◌^◌, ℕ};
ghost use Rattle.four_words.specs.declared.words.BoxWords.{BoxWords};
ghost use Rattle.four_words.specs.declared.words.Mixed.{Mixed};

use crate::words::{BoxWords, Mixed};

// One fixed function of two words and two round words. It may hold a key, and owes nothing but words.
pub trait MixingBox {
    ghost value: { Self → ℕ → ℕ → BoxWords → Mixed };

    fn mix(&self, p: u16, q: u16, words: BoxWords) -> Mixed
        ensures { result ≡ value self.now p q words };

    // the values are words, also at numbers that are none: no code meets these, and the definition of a box is free there
    ghost within: { (m : Self) (p q : ℕ) (words : BoxWords) → ((value m p q words).t < 2 ^ 16) × ((value m p q words).s < 2 ^ 16) };
}
