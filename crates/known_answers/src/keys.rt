// A key as its bytes.
ghost use Rattle.std.specs.Prelude.{◌≡◌, ◌<◌, ◌≤◌, [], ◌∷◌, ◌++◌, length};

use arrayvec::ArrayVec;
use std::marker::Model;

// At most 96 bytes, kept in the value itself. It is no other name of the library's vector, so that nobody outside adds to a
// key.
#[derive(Drop)]
pub struct KeyBytes {
    bytes: ArrayVec<u8, 96>,
}

impl Model for KeyBytes {
    ghost use Rattle.std.specs.Prelude.{ℕ, List};

    ghost Value = { List ℕ };

    ghost view = { λ k. k.bytes.items };
}

impl KeyBytes {
    // A key of no bytes.
    pub fn new() -> KeyBytes
        ensures { result ≡ [] }
    {
        KeyBytes {
            bytes: ArrayVec::new(),
        }
    }

    // One byte more.
    pub(crate) fn push(&mut self, byte: u8)
        requires { length self.old < 96 }
        ensures { self.new ≡ self.old ++ byte ∷ [] }
    {
        self.bytes.push(byte);
    }

    // The bytes to look at.
    pub fn as_slice(&self) -> &[u8]
        ensures value { result.now ≡ self.now }
        ensures fits { length result.now ≤ 96 }
    {
        self.bytes.as_slice()
    }

    // The bytes for whoever takes the key.
    pub fn into_bytes(self) -> ArrayVec<u8, 96>
        ensures { result.items ≡ self }
    {
        let KeyBytes { bytes } = self;
        bytes
    }
}
