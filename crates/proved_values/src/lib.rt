// Known values, in one table.
//
// Promises: `proved_values` answers the table of `specs/Values.antt`, and each row of it is what the family's own definition
// says. Every value is made by the ordinary calls of its family. No call refuses.
#![tactic(auto)]

mod closing;
mod rows;
mod sealing;
mod values;

pub use values::{ProvedValues, proved_values};
