// The marked table of document 01 ("Table to prove, marked set"): specs/Marked.antt is the table, proofs/Top.antt its proof. This crate has
// no function: the rows speak of `assemble`'s promise and of the arithmetic's.
#![tactic(auto)]
