// The sum of words modulo their number.
use crate::lawful::Group;
use crate::words::Summed;
use std::marker::PhantomData;

#[derive(Clone, Copy, Default)]
pub struct Sum<W: Summed>(PhantomData<W>);

pub type Sum16 = Sum<u16>;

pub type Sum32 = Sum<u32>;

impl<W: Summed> Group for Sum<W> {
    type Word = W;

    const NEUTRAL: W = W::ZERO;

    ghost NEUTRAL = { W.ZERO };

    ghost joined = { W.summed };

    ghost inverted = { W.negated };

    ghost lawful = { W.lawful };

    fn join(left: W, right: W) -> W {
        left.wrapping_add(right)
    }

    fn inverse(word: W) -> W {
        word.wrapping_neg()
    }
}
