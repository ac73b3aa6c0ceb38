// The sparse tree: a table with one node record for each filled cell, in a lent slice of records.
#![tactic(auto)]

pub mod record;
pub mod sparse;
mod tree;
