// The calls that C makes.
ghost use Rattle.std.specs.Prelude.{◌≡◌, length};
ghost use Rattle.std.specs.Int.{from_be_bytes, w64, w128};
ghost use Rattle.des.specs.Des.{des};
ghost use Rattle.des.specs.Triple.{key_at, tdea};
ghost use Rattle.idea.specs.Idea.{idea};
ghost use Rattle.xtea.specs.Xtea.{xtea};
ghost use Rattle.one_block.specs.Calls.{Answers};

use crate::families::{pass_des, pass_ede3, pass_idea, pass_xtea};

// A block under DES.
#[unsafe(no_mangle)]
pub extern "C" fn one_block_des(key: &[u8], opening: bool, block: u64) -> u64
    ensures block { length key.now ≡ 8 → Answers (des (from_be_bytes w64 key.now)) opening block result }
    ensures other { (length key.now ≡ 8 → ⊥) → result ≡ 0 }
{
    match key.as_array() {
        Some(key) => pass_des(key, opening, block),
        None => 0,
    }
}

// A block under triple DES with three keys.
#[unsafe(no_mangle)]
pub extern "C" fn one_block_ede3(key: &[u8], opening: bool, block: u64) -> u64
    ensures block { length key.now ≡ 24 → Answers (tdea (key_at key.now 0) (key_at key.now 1) (key_at key.now 2)) opening block result }
    ensures other { (length key.now ≡ 24 → ⊥) → result ≡ 0 }
{
    match key.as_array() {
        Some(keys) => pass_ede3(keys, opening, block),
        None => 0,
    }
}

// A block under IDEA with all eight rounds.
#[unsafe(no_mangle)]
pub extern "C" fn one_block_idea(key: &[u8], opening: bool, block: u64) -> u64
    ensures block { length key.now ≡ 16 → Answers (idea (from_be_bytes w128 key.now) 8) opening block result }
    ensures other { (length key.now ≡ 16 → ⊥) → result ≡ 0 }
{
    match key.as_array() {
        Some(key) => pass_idea(key, opening, block),
        None => 0,
    }
}

// A block under XTEA with 32 cycles.
#[unsafe(no_mangle)]
pub extern "C" fn one_block_xtea(key: &[u8], opening: bool, block: u64) -> u64
    ensures block { length key.now ≡ 16 → Answers (xtea key.now 32) opening block result }
    ensures other { (length key.now ≡ 16 → ⊥) → result ≡ 0 }
{
    match key.as_array() {
        Some(key) => pass_xtea(key, opening, block),
        None => 0,
    }
}
