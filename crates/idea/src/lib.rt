// IDEA: its mixing box, its key schedule, and the cipher.
//
// Promises: the map of `Idea::new` is IDEA as the Handbook of Applied Cryptography has it, for every key of sixteen bytes
// and 1 to 8 rounds. It is built as a four-word network over the product modulo 65,537 and the sum modulo 2^16, so turning
// and undoing need no proof of their own: `seal` runs the network's rounds in order, and `turn` turns the network.
// `key_schedule` gives the words of a key, and `closing` tells a cipher's closing words, turned or not. No call refuses.
#![tactic(auto)]

mod cipher;
mod expansion;
mod mixing;

pub use cipher::Idea;
pub use expansion::key_schedule;
pub use four_words::{Rounds, Words};
