// Bytes of any number, written in hexadecimal.
ghost use Rattle.std.specs.Prelude.{◌≡◌, IfOk, vec_items};
ghost use Rattle.std.specs.Option.{option_map};
ghost use Rattle.known_answers.specs.Hex.{bytes_of};

use known_answers::hex::Pairs;
use std::alloc::{AllocError, Global};

// The bytes that the digits write, two to a byte; none where they do not. `known_answers` reads a key by the same pairs,
// into an array, since it asks for no memory.
pub fn bytes(heap: Global, digits: &[u8]) -> Result<Option<Vec<u8>>, AllocError>
    ensures { IfOk result (λ o. option_map vec_items o ≡ bytes_of digits.now) }
{
    let mut read = Vec::new(heap);
    for byte in Pairs::new(digits) {
        let Some(byte) = byte else {
            return Ok(None);
        };
        read.push(byte)?;
    }
    Ok(Some(read))
}
