// Boards of each kind, made and used.
ghost use Rattle.std.specs.Prelude.{◌≡◌, []};
ghost use Rattle.board.specs.Standing.{remove_gives};

use crate::{Design, Use, with_board};
use board::board::Board;
use std::test::Fail;
use stores::store::Store;
use tables::table::Table;
use words::Refusal;
use words::aisles::Aisle;
use words::kinds::{StoreKind, TableKind};

// Removes a wait, of which none stands.
#[derive(Drop)]
struct Removal;

impl Use for Removal {
    type Outcome = Result<(), Refusal>;

    ghost gives = { λ u b r. r ≡ remove_gives b [] 0 4096 };

    fn on<T: Table + Drop, S: Store + Drop>(self, board: Board<T, S>) -> Result<(), Refusal> {
        let mut board = board;
        board.remove(0, 4096)
    }
}

// Places a wait, and counts the moves of a list.
#[derive(Drop)]
struct Listing;

impl Use for Listing {
    type Outcome = Result<usize, Refusal>;

    ghost gives = { λ u b r. Unit {0} };

    fn on<T: Table + Drop, S: Store + Drop>(self, board: Board<T, S>) -> Result<usize, Refusal> {
        let mut board = board;
        board.place(0, 4096)?;
        let mut codes = [0; 16];
        board.list(&mut codes)
    }
}

const KINDS: [(TableKind, StoreKind); 6] = [
    (TableKind::Plain, StoreKind::Loose),
    (TableKind::Plain, StoreKind::Ordered),
    (TableKind::Full, StoreKind::Loose),
    (TableKind::Full, StoreKind::Ordered),
    (TableKind::Sparse, StoreKind::Loose),
    (TableKind::Sparse, StoreKind::Ordered),
];

fn design(table: TableKind, store: StoreKind, waits: usize) -> Design {
    Design {
        aisle: Aisle::new(3, 5),
        table,
        store,
        cells: 1,
        waits,
    }
}

#[test]
fn boards_of_every_kind(rt: HostRuntime) -> Result<(), Fail> {
    let heap = rt.alloc();
    for (table, store) in KINDS {
        let removed = with_board(heap, design(table, store, 1), Removal)?;
        assert!(rt; removed == Err(Refusal::NotHeld));
        let listed = with_board(heap, design(table, store, 1), Listing)?;
        assert!(rt; listed == Ok(15));
        let full = with_board(heap, design(table, store, 0), Listing)?;
        assert!(rt; full == Err(Refusal::StoreFull));
    }
    Ok(())
}

// No table has so many shuttles: the board has one.
#[test]
fn a_board_of_refused_sizes(rt: HostRuntime) -> Result<(), Fail> {
    for (table, store) in KINDS {
        let mut wide = design(table, store, 1);
        wide.aisle = Aisle::new(17, 4096);
        let removed = with_board(rt.alloc(), wide, Removal)?;
        assert!(rt; removed == Err(Refusal::NoSuchShuttle));
    }
    Ok(())
}
