// Known answers of a block cipher, one to a line: `description;key;text;sealed`, where capitals and small letters serve alike as
// hexadecimal digits of key, text and sealed block.
//
// The crate cuts an input into lines, reads a line, and counts and prints the verdicts that an examiner gives; it knows no
// cipher. Promises: a function answers what its definition in specs/ gives, and answers none exactly where the definition
// gives none. Nothing asks for memory.
#![tactic(auto)]

pub mod examiner;
pub mod hex;
pub mod keys;
pub mod lines;
pub mod report;
pub mod running;
pub mod tally;
pub mod vector;
