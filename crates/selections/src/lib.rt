// Bits of a word, selected by a table.
//
// Promises: `select` answers the bits that a table names, in the table's order, for every width, table and word. No call
// refuses. Its definitions say too what a table must be to permute the bits of a word and which table is the inverse one;
// that both permutations take each other back is a lemma that other crates cite.
#![tactic(auto)]

mod selecting;

pub use selecting::select;
