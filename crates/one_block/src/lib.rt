// One block under a new key, called from C: what a key costs by itself. `include/one_block.h` declares the calls.
//
// Promises: each call makes its cipher under the key that it is given, and answers the block that the cipher's definition seals
// the given one to, or, opening, a block that it seals to the given one. Under a key of another length than the cipher's the
// answer is 0. The key is only read. Nothing asks for memory, and nothing is kept between calls.
#![tactic(auto)]

mod calls;
mod families;

pub use calls::{one_block_des, one_block_ede3, one_block_idea, one_block_xtea};
