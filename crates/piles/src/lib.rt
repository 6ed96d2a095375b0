// Piles: ciphers one after another, as a description names them, under one key.
//
// Promises: a new pile keeps every block. `fit` answers as the description's and the key's definitions decide, for every
// byte string and every key; where it accepts, the map is that of the stages from left to right, each under its own bytes
// of the key, and where it refuses, the map is as it was. The key's bytes are zeros afterwards, either way; `fitted` makes a
// new pile with the key in its caller's bytes, and blanks them. A pile is a cipher, and can be undone.
#![tactic(auto)]

mod keys;
mod layers;
mod pile;
mod supply;

pub use keys::Key;
pub use pile::Pile;
