// Trace files: a trace closed under a pile, and opened again.
//
// Promises: `close` and `open` answer as their definitions decide, for every input. What `close` writes is the one file of
// its label, start and plain; `open` takes exactly the files that are closings of something, and gives back what was
// closed, under any pile with the same map; closed again, that is the file byte for byte. The rest of an output and the
// pile's map stay as they were, and a refusal changes nothing. Nothing asks for memory.
#![tactic(auto)]

mod closing;
mod headers;
mod opening;
mod padding;
mod runs;

pub use closing::close;
pub use headers::{Axis, Header, Label};
pub use opening::{Opened, open};
