// The four words in registers of their own. Compiled code hands on `Words` as one number of 64 bits, so that each round would
// take it apart and pack it again.
ghost use Rattle.std.specs.Prelude.{◌≡◌};
ghost use Rattle.four_words.specs.Quarters.{Fit};

use crate::words::Words;
use std::marker::Model;

#[derive(Clone, Copy)]
pub(crate) struct Unpacked {
    first: u32,
    second: u32,
    third: u32,
    fourth: u32,
}

// A contract sees the words.
impl Model for Unpacked {
    ghost use Rattle.four_words.specs.declared.words.Words.{Words};
    ghost use Rattle.four_words.specs.Quarters.{Fit};

    ghost Value = { Words };

    ghost view = { λ u. record { first = u.first; second = u.second; third = u.third; fourth = u.fourth } };

    ghost inverse = { λ w. record { first = w.first; second = w.second; third = w.third; fourth = w.fourth } };

    ghost invariant = { λ u. Fit (record { first = u.first; second = u.second; third = u.third; fourth = u.fourth }) };
}

impl Unpacked {
    #[inline(always)]
    pub(crate) fn new(words: Words) -> Unpacked
        ensures { result ≡ words }
    {
        Unpacked {
            first: words.first.into(),
            second: words.second.into(),
            third: words.third.into(),
            fourth: words.fourth.into(),
        }
    }

    #[inline(always)]
    pub(crate) fn words(self) -> Words
        ensures { result ≡ self }
    {
        Words {
            first: self.first as u16,
            second: self.second as u16,
            third: self.third as u16,
            fourth: self.fourth as u16,
        }
    }
}
