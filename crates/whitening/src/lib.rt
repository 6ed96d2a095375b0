// Whitening: a word adder, which joins the halves of a block with two words, in any group on 32-bit words.
//
// Promises, for every lawful group: the map of `Whitening::new` joins the left half with the left word and the right half
// with the right one, each on the right; that of `Whitening::keyed` does so with the halves of a key of eight bytes, most
// significant byte first. `turn` gives both words their inverses, and makes the map its inverse. `Wxor::xoring` xors the halves
// of block and key, `Wadd::adding` adds them modulo 2^32. No call refuses.
#![tactic(auto)]

mod adder;

pub use adder::{Wadd, Whitening, Wxor};
