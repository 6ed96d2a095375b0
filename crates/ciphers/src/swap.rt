// The swap of a block's halves, which is its own inverse.
ghost use Rattle.std.specs.Prelude.{◌≡◌};
ghost use Rattle.ciphers.specs.Blocks.{halves_swapped};

use crate::interface::Cipher;
use crate::undoing::Undo;
use networks::Halves;

#[derive(Drop)]
pub struct SwapHalves;

impl Cipher for SwapHalves {
    ghost map = { λ _. halves_swapped };

    fn seal(&self, block: u64) -> u64
        ensures map { result ≡ ⟦<Self as Cipher>⟧.map self.now block }
        ensures halves { result ≡ halves_swapped block }
    {
        Halves::from(block).swap().into()
    }

    fn turn(&mut self) {}
}

impl Undo for SwapHalves {
    fn undo(&self, block: u64) -> u64 {
        self.seal(block)
    }
}
