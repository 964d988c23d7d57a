// The labels of a source in lent rows: each by its place in the source (document 01, "What is lent": "labels at most 512, a label at most
// 64 bytes").
#![tactic(auto)]

pub mod bound; // the values of labels
pub mod chains; // keys and chains of names
pub mod finding; // a name among the labels
pub mod holding; // one label more
