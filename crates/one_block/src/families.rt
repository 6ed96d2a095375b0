// A block passed under a key of the length that its family takes.
ghost use Rattle.std.specs.Int.{from_be_bytes, w64, w128};
ghost use Rattle.des.specs.Des.{des};
ghost use Rattle.des.specs.Triple.{key_at, tdea};
ghost use Rattle.idea.specs.Idea.{idea};
ghost use Rattle.xtea.specs.Xtea.{xtea};
ghost use Rattle.one_block.specs.Calls.{Answers};

use ciphers::Cipher;
use des::{Des, ede3};
use idea::{Idea, Rounds};
use xtea::{Cycles, Xtea};

// Seals a block, or opens it.
fn pass<C: Cipher>(cipher: &mut C, opening: bool, block: u64) -> u64
    ensures { Answers (C.Cipher.map cipher.old) opening block result }
{
    if opening {
        cipher.turn();
    }
    cipher.seal(block)
}

#[tactic(auto, using(crate::proofs::Answered::answered))]
pub(crate) fn pass_des(key: &[u8; 8], opening: bool, block: u64) -> u64
    ensures { Answers (des (from_be_bytes w64 key.now)) opening block result }
{
    pass(&mut Des::new(key), opening, block)
}

#[tactic(auto, using(crate::proofs::Answered::answered))]
pub(crate) fn pass_ede3(keys: &[u8; 24], opening: bool, block: u64) -> u64
    ensures { Answers (tdea (key_at keys.now 0) (key_at keys.now 1) (key_at keys.now 2)) opening block result }
{
    pass(&mut ede3(keys), opening, block)
}

// With all eight rounds.
#[tactic(auto, using(crate::proofs::Answered::answered))]
pub(crate) fn pass_idea(key: &[u8; 16], opening: bool, block: u64) -> u64
    ensures { Answers (idea (from_be_bytes w128 key.now) 8) opening block result }
{
    pass(&mut Idea::new(key, Rounds::full()), opening, block)
}

// With 32 cycles.
#[tactic(auto, using(crate::proofs::Answered::answered))]
pub(crate) fn pass_xtea(key: &[u8; 16], opening: bool, block: u64) -> u64
    ensures { Answers (xtea key.now 32) opening block result }
{
    pass(&mut Xtea::new(key, Cycles::full()), opening, block)
}
