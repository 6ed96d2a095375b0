// What a cipher is.
ghost use Rattle.std.specs.Prelude.{◌≡◌, ℕ};
ghost use Rattle.networks.specs.Fours.{each};
ghost use Rattle.ciphers.specs.Maps.{Inverse};

use networks::Four;

// A map of 64-bit blocks. Neither call refuses.
pub trait Cipher {
    ghost map: { Self → ℕ → ℕ };

    // what a turn does to the value, where that says more than the inverse map
    ghost turns: { Self → Self → Type 0 } = { λ old new. Unit {0} };

    // The map's block: encrypts, or decrypts once the cipher is turned.
    fn seal(&self, block: u64) -> u64
        ensures { result ≡ map self.now block };

    // Four blocks, of which each is sealed by itself. A cipher may have all of them in flight at once.
    fn seal_four(&self, blocks: Four<u64>) -> Four<u64>
        ensures { result ≡ each (map self.now) blocks }
    {
        Four {
            first: self.seal(blocks.first),
            second: self.seal(blocks.second),
            third: self.seal(blocks.third),
            fourth: self.seal(blocks.fourth),
        }
    }

    // Becomes the inverse, in place: what it sealed, it now opens.
    fn turn(&mut self)
        ensures inverse { Inverse (map self.old) (map self.new) }
        ensures turned { turns self.old self.new };
}
