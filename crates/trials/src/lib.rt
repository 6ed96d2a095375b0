// Known answers tried on their ciphers.
//
// Promises: `judge` says `Ok` only of a text that is the one block sealed to the known one. `Piles` gives every line the
// verdict that the definitions of its reading, of what its description and key fit, and of the ciphers decide. Nothing
// asks for memory.
#![tactic(auto)]

mod examining;
mod judging;

pub use examining::Piles;
pub use judging::judge;
