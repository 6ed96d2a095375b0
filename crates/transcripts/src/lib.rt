// Sessions as text: a key, and then one call to a line.
//
// Promises: a line is read as its definition says, whatever it is, or the answer is that memory is wanting. A session
// that is run on two benches over XTEA holds afterwards what it brought, and every call has two answers that are the
// same.
#![tactic(auto)]

mod comparing;
mod copies;
mod hex_text;
mod lines;
mod return_trip;

pub use comparing::same;
pub use copies::copied;
pub use hex_text::bytes;
pub use lines::{Line, read};
pub use return_trip::{full_xtea, there_and_back};
