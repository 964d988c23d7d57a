// A listing, assembled again, gives the memory and the map that it lists (document 02, K1 and K2). This crate has no function: its theorems speak
// of `list`'s promise, of the rules of writing and of `assemble`'s.
#![tactic(auto)]
