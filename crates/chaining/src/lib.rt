// Benches: runs of blocks chained over any cipher, and sessions on them.
//
// Promises: a bench owns its cipher, begins sealing and has no chain block before its first restart. `restart`, `turn`
// and `pass` say of every input, taken or refused, what becomes of the run, the chain block, the direction and the
// cipher's map: a pass is cipher block chaining, block by block. A refusal changes nothing. `serve` does the calls of a
// session in order. `mirror` carries the session law: a second bench, turned once and given a session as the first left
// it, gives back what the first was brought. Nothing asks for memory.
#![tactic(auto)]

mod bench;
mod calls;
mod direction;
mod judging;
mod sessions;

pub use bench::Bench;
pub use calls::{Call, Request};
pub use direction::Direction;
pub use sessions::{mirror, serve};
