// The workbench called from C: a run passed under a pile, a trace closed, a trace file opened. `include/jinthoral.h` declares
// the calls.
//
// Promises: each call fits a new pile by a description and a key, does the one thing that it is called for, as the crates
// below define it, and tells its caller the number and the place of its refusal, or that there was none and how many bytes
// were written. The key's bytes are zeros afterwards, either way. A refusal leaves a run and an output as they were. Nothing
// asks for memory, and nothing is kept between calls.
#![tactic(auto)]

mod calls;
mod passes;
mod replies;

pub use calls::{jinthoral_close, jinthoral_open, jinthoral_pass};
pub use replies::{OpenedReply, Reply};
