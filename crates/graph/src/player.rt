// Whoever answers the calls of a board: a board over any table and any store, and the graph search.
use crate::graph::Graph;
use board::board::Board;
use runs::calls::{Ask, Outcome};
use runs::steps::step;
use stores::store::Store;
use tables::table::Table;

pub trait Player {
    // Makes the call. A list and a push write to the slice, a test reads it.
    fn play(&mut self, ask: Ask, slice: &mut [u16]) -> Outcome;
}

impl<T: Table, S: Store> Player for Board<T, S> {
    fn play(&mut self, ask: Ask, slice: &mut [u16]) -> Outcome {
        step(self, ask, slice)
    }
}

impl Player for Graph {
    fn play(&mut self, ask: Ask, slice: &mut [u16]) -> Outcome {
        self.answer(ask, slice)
    }
}
