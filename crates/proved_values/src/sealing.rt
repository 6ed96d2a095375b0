// What a cipher under a key makes of a block: what its family's definition says.
ghost use Rattle.std.specs.Prelude.{◌≡◌};
ghost use Rattle.std.specs.Int.{from_be_bytes, w64, w128};
ghost use Rattle.whitening.specs.Whitening.{wadd};
ghost use Rattle.xtea.specs.Xtea.{xtea};
ghost use Rattle.des.specs.Des.{des};
ghost use Rattle.idea.specs.Idea.{idea};

use ciphers::Cipher;
use des::Des;
use idea::{Idea, Rounds};
use whitening::Wadd;
use xtea::{Cycles, Xtea};

pub(crate) fn wadd(key: &[u8; 8], block: u64) -> u64
    ensures { result ≡ wadd (from_be_bytes w64 key.now) block }
{
    Wadd::adding(key).seal(block)
}

pub(crate) fn xtea(key: &[u8; 16], cycles: Cycles, block: u64) -> u64
    ensures { result ≡ xtea key.now cycles block }
{
    Xtea::new(key, cycles).seal(block)
}

pub(crate) fn des(key: &[u8; 8], block: u64) -> u64
    ensures { result ≡ des (from_be_bytes w64 key.now) block }
{
    Des::new(key).seal(block)
}

pub(crate) fn idea(key: &[u8; 16], rounds: Rounds, block: u64) -> u64
    ensures { result ≡ idea (from_be_bytes w128 key.now) rounds block }
{
    Idea::new(key, rounds).seal(block)
}
