// Ciphers whose steps can be taken back without turning them.
ghost use Rattle.std.specs.Prelude.{◌≡◌, ℕ, ◌^◌, ◌<◌};
ghost use Rattle.ciphers.specs.Maps.{SameMap};

use crate::interface::Cipher;
use networks::WaysBack;

pub trait Undo: Cipher {
    // The block that is sealed to this one.
    fn undo(&self, block: u64) -> u64
        ensures { Self.Cipher.map self.now result ≡ block };
}

// Both ways back of a block, its sealing undone and sealed again by the turned cipher: they agree.
// The cipher's map is as it was afterwards. A network promises the same of halves, and of itself.
pub fn ways_back<C: Undo>(cipher: &mut C, block: u64) -> WaysBack<u64>
    ensures undone { C.Cipher.map cipher.old result.undone ≡ block }
    ensures only { (b : ℕ) → b < 2 ^ 64 → C.Cipher.map cipher.old b ≡ block → result.undone ≡ b }
    ensures agree { result.undone ≡ result.turned }
    ensures same { SameMap (C.Cipher.map cipher.new) (C.Cipher.map cipher.old) }
{
    let undone = cipher.undo(block);
    cipher.turn();
    let turned = cipher.seal(block);
    cipher.turn();
    WaysBack { undone, turned }
}
