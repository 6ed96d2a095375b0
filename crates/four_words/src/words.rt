// The four words that a network works on, and the words that it works with.
ghost use Rattle.std.specs.Prelude.{◌≡◌};
ghost use Rattle.four_words.specs.Quarters.{exchanged, words_of, block_of};

#[derive(Clone, Copy, Debug, Default, PartialEq, Eq)]
pub struct Words {
    pub first: u16,
    pub second: u16,
    pub third: u16,
    pub fourth: u16,
}

// What a mixing box takes of a round's words.
#[derive(Clone, Copy, Default)]
pub struct BoxWords {
    pub z5: u16,
    pub z6: u16,
}

// What a mixing box gives: t goes to words 1 and 3, s to words 2 and 4.
#[derive(Clone, Copy)]
pub struct Mixed {
    pub t: u16,
    pub s: u16,
}

// The words of one round: z1 to z4, which are joined with the four words, and z5 and z6.
#[derive(Clone, Copy, Default)]
pub struct RoundWords {
    pub joins: Words,
    pub mixing: BoxWords,
}

impl Words {
    // Words 2 and 3 change places.
    pub fn exchange(self) -> Words
        ensures { result ≡ exchanged self }
    {
        Words {
            first: self.first,
            second: self.third,
            third: self.second,
            fourth: self.fourth,
        }
    }
}

// A block as four words, the first one most significant.
impl From<u64> for Words {
    ghost from_gives = { λ block words. words ≡ words_of block };

    fn from(block: u64) -> Words {
        Words {
            first: (block >> 48) as u16,
            second: ((block >> 32) % 0x1_0000) as u16,
            third: ((block >> 16) % 0x1_0000) as u16,
            fourth: (block % 0x1_0000) as u16,
        }
    }
}

impl From<Words> for u64 {
    ghost from_gives = { λ words block. block ≡ block_of words };

    fn from(words: Words) -> u64 {
        let high = u64::from(words.first) * 0x1_0000 + u64::from(words.second);
        let low = u64::from(words.third) * 0x1_0000 + u64::from(words.fourth);
        high * 0x1_0000_0000 + low
    }
}
