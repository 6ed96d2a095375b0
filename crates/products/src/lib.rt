// The multiplicative group of the prime 65,537 on words of 16 bits, the word 0 standing for 65,536.
//
// Promises: `Product16` is lawful on all 65,536 words, as each `Group` is: its join is associative, 1 is neutral on either
// side, and a word joined with its inverse, on either side, is 1. `join` is the product modulo 65,537, and it commutes; the
// inverse is the only word of which the product is 1. No call refuses.
#![tactic(auto)]

mod product;

pub use product::Product16;
