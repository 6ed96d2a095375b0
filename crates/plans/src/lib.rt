// Descriptions of piles, and the plans that they are read as.
//
// A description is words between spaces; each names a cipher, some with a count, and a plan is the one to four stages that
// they name. Promises: `read` gives every byte string the plan, or the refusal with its place, that its definition does,
// its words judged from left to right; and what a plan is written as is read as that plan, whatever its spaces. A plan has
// one to four stages, and the count of each is one that it takes. `same` tells exactly whether two plans have the same
// names and counts, stage by stage. Nothing asks for memory.
#![tactic(auto)]

mod judging;
mod plan;
mod stages;
mod words;

pub use plan::{Plan, read};
pub use stages::Stage;
