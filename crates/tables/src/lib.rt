// The earliest table: for each ordered pair of different shuttles and each place, a place or nothing. A trait says by its meaning what a table is; the plain table is one.
#![tactic(auto)]

pub mod checks;
pub mod lent;
pub mod numbers;
pub mod plain;
pub mod table;
