// The full tree: a table with a tree of least values for each ordered pair of shuttles, so that put, clear, least and last each take one path of one tree.
#![tactic(auto)]

pub mod full;
mod tree;
