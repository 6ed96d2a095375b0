// Feistel networks, generic over a group and a round function, with both of their ways back.
//
// Promises, for every lawful group, round function, number of rounds from 0 to 64 and choice of round words: `Feistel::run`
// answers what the definition of the network says, and `run_four` the same of four pairs of halves, which it works on side by
// side; `turn` reverses the round words and inverts the function's values, and the turned network is the inverse; undoing the
// rounds and running the turned network make the same of any halves, and the network makes these halves of it again (`undo`,
// `ways_back`). `Schedule::new` and `first` answer none where there is room for more than 64 words; no other call turns its
// caller away. Words may be kept, and halves worked on, in another form than that of their definitions (`RoundFunction`,
// `HalfWord`); contracts speak of what they stand for.
#![tactic(auto)]

mod feistel;
mod fours;
mod functions;
mod half_words;
mod pairs;
mod schedules;
#[cfg(test)]
mod tests;
mod ways;

pub use feistel::Feistel;
pub use fours::Four;
pub use functions::RoundFunction;
pub use half_words::HalfWord;
pub use pairs::Halves;
pub use schedules::Schedule;
pub use ways::WaysBack;
