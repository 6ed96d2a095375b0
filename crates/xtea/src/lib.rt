// XTEA: its round function, its key schedule, and the cipher.
//
// Promises: the map of `Xtea::new` is XTEA as its authors' note defines it, for every key of sixteen bytes and 1 to 32
// cycles; its network has the note's round words. It is built as a Feistel network over the sum modulo 2^32 with a swap of the
// halves behind it, so turning and undoing need no proof of their own: `seal` runs the network's rounds in order, and `turn`
// turns the network. No call refuses.
#![tactic(auto)]

mod cipher;
mod cycles;
mod expansion;
mod rounding;

pub use cipher::Xtea;
pub use cycles::Cycles;
pub use rounding::XteaRound;
