// The two halves that a Feistel network works on.
ghost use Rattle.std.specs.Prelude.{◌≡◌};
ghost use Rattle.networks.specs.Halves.{Words, swapped, halves_of, block_of};

use groups::Word;

#[derive(Clone, Copy, Debug, PartialEq, Eq)]
pub struct Halves<W> {
    pub left: W,
    pub right: W,
}

impl<W> Halves<W> {
    pub fn swap(self) -> Halves<W>
        ensures { result ≡ swapped self }
    {
        let Halves { left, right } = self;
        Halves {
            left: right,
            right: left,
        }
    }
}

impl<W: Word> Halves<W> {
    // The halves themselves. It tells that both are words.
    #[inline(always)]
    pub(crate) fn words(self) -> Halves<W>
        ensures value { result ≡ self }
        ensures fits { Words W.Word.fits self }
    {
        Halves {
            left: self.left.word(),
            right: self.right.word(),
        }
    }
}

// A block as two halves, the left one high.
impl From<u64> for Halves<u32> {
    ghost from_gives = { λ block halves. halves ≡ halves_of block };

    fn from(block: u64) -> Halves<u32> {
        Halves {
            left: (block >> 32) as u32,
            right: (block % 0x1_0000_0000) as u32,
        }
    }
}

impl From<Halves<u32>> for u64 {
    ghost from_gives = { λ halves block. block ≡ block_of halves };

    fn from(halves: Halves<u32>) -> u64 {
        u64::from(halves.left) * 0x1_0000_0000 + u64::from(halves.right)
    }
}
