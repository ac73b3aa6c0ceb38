// The ordered list: a wait store that keeps its waits by their codes, and finds each by halving.
#![tactic(auto)]

pub mod ordered;
