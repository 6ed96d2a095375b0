// A chaining context.
ghost use Rattle.std.specs.Prelude.{◌≡◌};
ghost use Rattle.chaining.specs.Benches.{state_of, begun};

mod calling;
mod opening;
mod rewriting;

use crate::direction::Direction;
use ciphers::Cipher;

// A cipher, which it owns, a direction, and a chain block once there is one.
// It has no model, since no model's value can hold the cipher's map, and `into_cipher` gives back the cipher itself.
#[derive(Drop)]
pub struct Bench<C> {
    cipher: C,
    direction: Direction,
    chain: Option<u64>,
}

impl<C: Cipher> Bench<C> {
    // Begins sealing, with no chain block.
    pub fn new(cipher: C) -> Bench<C>
        ensures { state_of C.Cipher.map result ≡ begun (C.Cipher.map cipher) }
    {
        Bench {
            cipher,
            direction: Direction::Sealing,
            chain: None,
        }
    }

    // Taken apart, it gives its cipher back as it is now.
    pub fn into_cipher(self) -> C
        ensures { result ≡ self.cipher }
    {
        let Bench { cipher, .. } = self;
        cipher
    }

    pub fn direction(&self) -> Direction
        ensures { result ≡ self.now.direction }
    {
        self.direction
    }

    pub fn chain(&self) -> Option<u64>
        ensures { result ≡ self.now.chain }
    {
        self.chain
    }
}
