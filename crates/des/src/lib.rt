// DES and triple DES.
//
// Promises: the map of `Des::new` is DES as FIPS 46-3 has it, for every key of eight bytes; its network has the
// standard's round words, each eighth bit of the key is ignored, and deciphering is the inverse of enciphering. `ede2` and `ede3` are
// triple DES under two and three keys. Under opposite keys, opposite texts are sealed to opposite blocks (`seal_both`). An
// S-box gives four bits, and its row holds each number of four bits once; the cipher itself looks up one table that merges the
// boxes with P and E. No call refuses. DES is built as a permutation, a Feistel network over xor and the inverse permutation,
// and triple DES as three such networks between the permutations, so turning and undoing need no proof of their own: `seal`
// runs the networks' rounds in order, between IP and its inverse, and `turn` turns each network and reverses their order.
#![tactic(auto)]

mod boxes;
mod cipher;
mod ede;
mod initial;
mod keys;
mod opposites;
mod rounding;
mod spread;
mod tables;
mod triple;

pub use boxes::s_box;
pub use cipher::Des;
pub use ede::{ede2, ede3};
pub use opposites::{Sealed, seal_both};
pub use triple::TripleDes;
