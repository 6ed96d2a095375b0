// Ciphers as maps of 64-bit blocks: the interface, and the layers that ciphers are built from.
//
// Promises: `seal` answers the block that the cipher's map gives, `seal_four` those that it gives of four blocks, and `turn`
// makes the map its inverse: the old map and the new one undo each other, in either order, on every block. What else a turn does
// to a cipher, as to reverse a network's round words, the cipher says itself (`Cipher::turns`). An implementation of `Undo` takes
// a sealing back without turning, and `ways_back` shows that both ways agree. Every Feistel network over words of 32 bits, the
// swap of halves, every permutation of bits, every pair of ciphers and every EDE of three are such ciphers; pairs and EDEs are
// proved against the maps of their parts alone. A pair seals with the first and then the second; an EDE with the first, the
// second's inverse and the third, and with three equal maps as one of them does. No call refuses.
#![tactic(auto)]

mod ede;
mod feistels;
mod interface;
mod permutations;
mod sequence;
mod swap;
mod undoing;

pub use ede::Ede;
pub use interface::Cipher;
pub use networks::{Four, WaysBack};
pub use permutations::{BitPermutation, Permutation};
pub use sequence::Pair;
pub use swap::SwapHalves;
pub use undoing::{Undo, ways_back};
