// Groups of machine words: what a group is, and those that the ciphers are built on.
//
// Promises: every value of a `Word` type is a word, and every implementation of `Group` is lawful on all words of its type. The
// join is associative, the neutral word on either side changes nothing, and a word joined with its inverse, on either side, is
// neutral. No call refuses. Nothing assumes that a join commutes.
#![tactic(auto)]

mod lawful;
mod sums;
mod words;
mod xor;

pub use lawful::Group;
pub use sums::{Sum, Sum16, Sum32};
pub use words::{Summed, Word};
pub use xor::Xor32;
