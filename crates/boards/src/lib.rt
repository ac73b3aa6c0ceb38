// Boards as they are asked for: over a table and a store of any kinds, on the heap, for whoever uses one.
#![tactic(auto)]

ghost use Rattle.std.specs.Prelude.{◌≡◌, IfOk, []};
ghost use Rattle.words.specs.Refusals.{if_done};
ghost use Rattle.tables.specs.Answers.{sizable};
ghost use Rattle.board.specs.Standing.{Limits, Stands, limits};
ghost use Rattle.boards.specs.Designs.{limits_of, limits_with};

use board::board::Board;
use fulltree::full::{self, FullTree};
use ordered::ordered::Ordered;
use sparse::record::Record;
use sparse::sparse::SparseTree;
use std::alloc::{AllocError, Global};
use stores::loose::Loose;
use stores::store::Store;
use stores::wait::Wait;
use tables::checks::check_sizes;
use tables::plain::{self, Plain};
use tables::table::Table;
use words::aisles::Aisle;
use words::kinds::{StoreKind, TableKind};

#[cfg(test)]
mod tests;

// No more waits are held, and no more records of a sparse tree are used.
const MOST: usize = 65535;

// What a board is made of: its aisle, the kinds of its table and its store, how many cells a sparse tree can fill, and how many waits the store can hold.
// Where no table has the aisle's sizes, the board has one shuttle with one move.
#[derive(Clone, Copy, PartialEq, Eq, Debug)]
pub struct Design {
    pub aisle: Aisle,
    pub table: TableKind,
    pub store: StoreKind,
    pub cells: usize,
    pub waits: usize,
}

// Whoever uses a board, of whatever kinds its table and its store are.
pub trait Use: Drop {
    type Outcome;

    // what comes of a board with these limits on which no wait stands
    ghost gives: { Self → Limits → Self.Outcome → Type 0 };

    fn on<T: Table + Drop, S: Store + Drop>(self, board: Board<T, S>) -> Self::Outcome
        ensures { (b : Limits) → Stands b [] (T.Table.meaning board.table) (S.Store.holding board.store) → gives self b result };
}

// How long a buffer is made: as long as the table needs it, or empty where no table has the aisle's sizes.
fn room_for(aisle: Aisle, needed: usize) -> usize
    ensures { result ≡ if_done (sizable aisle.shuttles aisle.moves) 0 needed }
{
    match check_sizes(aisle) {
        Ok(()) => needed,
        Err(_) => 0,
    }
}

// A board over the table, with the store of the design.
fn on_table<T: Table + Drop, U: Use>(
    heap: Global,
    table: T,
    design: Design,
    user: U,
) -> Result<U::Outcome, AllocError>
    ensures { IfOk result (λ outcome. U.gives user (limits_with (T.Table.meaning table) design.waits) outcome) }
{
    let none = Wait {
        first: 0,
        second: 0,
    };
    let mut waits = Vec::from_elem(heap, none, design.waits.min(MOST))?;
    let waits = waits.as_mut_slice();
    Ok(match design.store {
        StoreKind::Loose => user.on(Board::make(table, Loose::make(waits))),
        StoreKind::Ordered => user.on(Board::make(table, Ordered::make(waits))),
    })
}

// Makes the board of the design, on which no wait stands, and hands it to the user. Its buffers live until the user is done.
pub fn with_board<U: Use>(heap: Global, design: Design, user: U) -> Result<U::Outcome, AllocError>
    ensures { IfOk result (λ outcome. U.gives user (limits_of design) outcome) }
{
    match design.table {
        TableKind::Plain => {
            let mut numbers = Vec::from_elem(
                heap,
                0,
                room_for(design.aisle, plain::numbers_of(design.aisle)),
            )?;
            let table = Plain::make(design.aisle, numbers.as_mut_slice());
            on_table(heap, table, design, user)
        }
        TableKind::Full => {
            let mut numbers = Vec::from_elem(
                heap,
                0,
                room_for(design.aisle, full::numbers_of(design.aisle)),
            )?;
            let table = FullTree::make(design.aisle, numbers.as_mut_slice());
            on_table(heap, table, design, user)
        }
        TableKind::Sparse => {
            let mut records = Vec::from_elem(
                heap,
                Record::Free(None),
                room_for(design.aisle, design.cells.min(MOST)),
            )?;
            let table = SparseTree::make(design.aisle, records.as_mut_slice());
            on_table(heap, table, design, user)
        }
    }
}
