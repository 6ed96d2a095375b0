// Refusals: why a call turned its caller away.
//
// Promises: every refusal is told by the number and the place that one definition gives its case, and a notice prints
// both.
#![tactic(auto)]

mod notices;
mod reasons;

pub use notices::Notice;
pub use reasons::Refusal;
