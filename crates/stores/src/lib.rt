// The wait store: which waits are held. A trait says by its meaning what a store is; the loose list is one.
#![tactic(auto)]

pub mod loose;
pub mod row;
pub mod store;
pub mod wait;
