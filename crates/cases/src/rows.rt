// Single pairs of a table, on every kind: least from a place on, and last up to a value.
use board::board::Board;
use fulltree::full::{FullTree, check_full};
use sparse::record::Record;
use sparse::sparse::{SparseTree, check_sparse};
use std::process::Abort;
use stores::loose::Loose;
use stores::store::Store;
use stores::wait::Wait;
use tables::plain::{Plain, check_plain};
use tables::table::Table;
use words::Refusal;
use words::aisles::Aisle;

// The smallest value of the pair (0, 1) from place i on.
fn least<T: Table>(table: &T, i: u16) -> Result<Option<u16>, Refusal> {
    table.least(0, 1, i)
}

// The last place of the pair (0, 1) that holds at most j.
fn last<T: Table>(table: &T, j: u16) -> Result<Option<u16>, Refusal> {
    table.last(0, 1, j)
}

// 65 at 2, 42 at 3 and 59 at 0, then 13 at 7.
fn hundred<T: Table + Drop>(rt: &impl Abort, mut table: T) {
    let _ = table.put(0, 1, 2, 65);
    let _ = table.put(0, 1, 3, 42);
    let _ = table.put(0, 1, 0, 59);
    assert_eq!(rt; least(&table, 0), Ok(Some(42)));
    assert_eq!(rt; least(&table, 4), Ok(None));
    assert_eq!(rt; last(&table, 59), Ok(Some(3)));
    assert_eq!(rt; last(&table, 41), Ok(None));
    let _ = table.put(0, 1, 7, 13);
    assert_eq!(rt; last(&table, 41), Ok(Some(7)));
    assert_eq!(rt; table.cell(1, 0, 7), Ok(None));
    let _ = table.clear(0, 1, 7);
    assert_eq!(rt; last(&table, 41), Ok(None));
    assert_eq!(rt; least(&table, 0), Ok(Some(42)));
}

// 3 at 1 and 9 at 6: a question from below a filled place, and from beyond it.
fn ten<T: Table + Drop>(rt: &impl Abort, mut table: T) {
    let _ = table.put(0, 1, 1, 3);
    let _ = table.put(0, 1, 6, 9);
    assert_eq!(rt; least(&table, 2), Ok(Some(9)));
    assert_eq!(rt; least(&table, 7), Ok(None));
    assert_eq!(rt; last(&table, 9), Ok(Some(6)));
}

// The last place holds 0: it is the least from everywhere, and the last up to everything.
fn edge<T: Table + Drop>(rt: &impl Abort, mut table: T) {
    let n = table.sizes().aisle.moves;
    assert!(rt; n >= 1);
    let _ = table.put(0, 1, n - 1, 0);
    assert_eq!(rt; least(&table, 0), Ok(Some(0)));
    assert_eq!(rt; last(&table, 0), Ok(Some(n - 1)));
    assert_eq!(rt; least(&table, n), Err(Refusal::NoSuchPlace));
    assert_eq!(rt; table.sizes().filled, 1);
}

#[test]
fn a_pair_of_a_hundred(rt: HostRuntime) {
    let mut cells = [0u16; 400];
    hundred(&rt, Plain::make(Aisle::new(2, 100), &mut cells));
    let mut trees = [0u16; 1024];
    hundred(&rt, FullTree::make(Aisle::new(2, 100), &mut trees));
}

#[test]
fn a_pair_of_ten(rt: HostRuntime) {
    let mut cells = [0u16; 40];
    ten(&rt, Plain::make(Aisle::new(2, 10), &mut cells));
    let mut trees = [0u16; 128];
    ten(&rt, FullTree::make(Aisle::new(2, 10), &mut trees));
}

#[test]
fn places_at_the_edge(rt: HostRuntime) {
    let mut trees = [0u16; 128];
    edge(&rt, FullTree::make(Aisle::new(2, 1), &mut trees));
    edge(&rt, FullTree::make(Aisle::new(2, 7), &mut trees));
    edge(&rt, FullTree::make(Aisle::new(2, 8), &mut trees));
    edge(&rt, FullTree::make(Aisle::new(2, 9), &mut trees));
    edge(&rt, Plain::make(Aisle::new(2, 1), &mut trees));
    edge(&rt, Plain::make(Aisle::new(2, 9), &mut trees));
}

#[test]
fn sizes_and_buffers(rt: HostRuntime) {
    assert_eq!(rt; check_plain(Aisle::new(16, 4096), 1048576), Ok(()));
    assert_eq!(rt;
        check_plain(Aisle::new(16, 4096), 1048575),
        Err(Refusal::TooShort)
    );
    assert_eq!(rt; check_full(Aisle::new(16, 4096), 2097152), Ok(()));
    assert_eq!(rt;
        check_full(Aisle::new(16, 4096), 2097151),
        Err(Refusal::TooShort)
    );
    assert_eq!(rt; check_full(Aisle::new(2, 9), 127), Err(Refusal::TooShort));
    assert_eq!(rt; check_full(Aisle::new(2, 9), 128), Ok(()));
    assert_eq!(rt; check_plain(Aisle::new(0, 1), 0), Err(Refusal::BadSize));
    assert_eq!(rt; check_plain(Aisle::new(17, 1), 0), Err(Refusal::BadSize));
    assert_eq!(rt; check_full(Aisle::new(1, 0), 0), Err(Refusal::BadSize));
    assert_eq!(rt; check_full(Aisle::new(1, 4097), 0), Err(Refusal::BadSize));
}

#[test]
fn pairs_of_a_sparse_tree(rt: HostRuntime) {
    let mut records = [Record::Free(None); 4];
    hundred(&rt, SparseTree::make(Aisle::new(2, 100), &mut records));
    ten(&rt, SparseTree::make(Aisle::new(2, 10), &mut records));
    edge(&rt, SparseTree::make(Aisle::new(2, 1), &mut records));
    edge(&rt, SparseTree::make(Aisle::new(2, 9), &mut records));
    assert_eq!(rt; check_sparse(Aisle::new(16, 4096)), Ok(()));
    assert_eq!(rt; check_sparse(Aisle::new(17, 4096)), Err(Refusal::BadSize));
}

// A table of eight cells for 2 x 8 moves: filled, full, emptied in another order, and filled again elsewhere.
fn refill<T: Table + Drop>(rt: &impl Abort, mut table: T) {
    for i in 0..8 {
        assert_eq!(rt; table.put(0, 1, i, (i * 5 + 3) % 8), Ok(()));
    }
    assert_eq!(rt; table.sizes().filled, 8);
    assert_eq!(rt;
        table.put(1, 0, 0, 0),
        Err(Refusal::TableFull),
        "an empty cell"
    );
    assert_eq!(rt; table.put(0, 1, 3, 7), Ok(()), "a filled cell");
    for i in 0..8 {
        let _ = table.clear(0, 1, (i * 3 + 1) % 8);
    }
    assert_eq!(rt; table.sizes().filled, 0);
    for i in 0..8 {
        assert_eq!(rt; table.put(1, 0, 7 - i, i), Ok(()));
    }
    assert_eq!(rt; table.put(0, 1, 0, 0), Err(Refusal::TableFull));
    assert_eq!(rt; table.least(1, 0, 3), Ok(Some(0)));
    assert_eq!(rt; table.last(1, 0, 4), Ok(Some(7)));
}

#[test]
fn freed_records_are_used_again(rt: HostRuntime) {
    let mut records = [Record::Free(None); 8];
    refill(&rt, SparseTree::make(Aisle::new(2, 8), &mut records));
}

// A second wait from one move needs no record; a wait from another move does.
fn one_cell<T: Table + Drop, S: Store + Drop>(rt: &impl Abort, table: T, store: S) {
    let mut board = Board::make(table, store);
    assert_eq!(rt; board.place(1, 4097), Ok(()));
    assert_eq!(rt; board.place(1, 4098), Ok(()));
    assert_eq!(rt; board.place(4098, 8192), Err(Refusal::TableFull));
}

#[test]
fn a_tree_of_one_record(rt: HostRuntime) {
    let mut records = [Record::Free(None); 1];
    let mut waits = [Wait {
        first: 0,
        second: 0,
    }; 3];
    one_cell(
        &rt,
        SparseTree::make(Aisle::new(3, 3), &mut records),
        Loose::make(&mut waits),
    );
}
