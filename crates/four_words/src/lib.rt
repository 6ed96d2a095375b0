// Networks on four 16-bit words (the structure of Lai and Massey, which IDEA has), generic over an outer and an inner
// group and a mixing box, with both of their ways back.
//
// Promises, for every two lawful groups, mixing box, number of rounds from 1 to 8 and choice of round words:
// `FourWord::run` answers what the definition of the network says, and `run_four` the same for each of four; `turn` gives
// each round the words that its definition names, and the turned network is the inverse; undoing the rounds and running the
// turned network make the same of any four words, and the network makes these words of it again (`undo`, `ways_back`). Every
// such network is a cipher, with word 1 most significant, whose map is that of the network. No call refuses.
#![tactic(auto)]

mod boxes;
mod cipher;
mod counts;
mod joins;
mod keys;
mod network;
mod turning;
mod two;
mod unpacked;
mod words;

pub use boxes::MixingBox;
pub use counts::Rounds;
pub use keys::KeyWords;
pub use network::FourWord;
pub use words::{BoxWords, Mixed, RoundWords, Words};
