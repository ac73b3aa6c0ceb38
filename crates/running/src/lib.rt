// Running orders over any table: list one, push a move to the front of one, and test a list.
#![tactic(auto)]

pub mod filling;
mod ready;
pub mod testing;

pub use filling::{list, push};
pub use testing::test;
