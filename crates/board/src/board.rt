// The board and its calls.
ghost use Rattle.std.specs.Prelude.{◌≡◌, ◌≤◌, []};
ghost use Rattle.words.specs.Refusals.{passed, LeftAlone};
ghost use Rattle.tables.specs.Answers.{cell_answer};
ghost use Rattle.questions.specs.Checks.{wait_check};
ghost use Rattle.board.specs.Steps.{Closes, Judged, Placing, Removing};
ghost use Rattle.board.specs.Standing.{Stands, limits, PlaceKeeps, RemoveKeeps, FindsSo, TellsSo, ListsAt, PushesAt, TestsAt};

use crate::cells::{put_earlier, set_cell};
use questions::asking::{nearest, precedes};
use questions::checks::check_wait;
use questions::rounds::Way;
use running::filling::{list, push};
use running::testing::test;
use stores::store::Store;
use stores::wait::Wait;
use tables::table::Table;
use words::Refusal;
use words::moves::Code;

// A board over a table and a store. Its calls take any numbers, and say what they do for all waits that stand on it; `make` lets none stand.
#[derive(Drop)]
pub struct Board<T: Table, S: Store> {
    table: T,
    store: S,
}

impl<T: Table, S: Store> Board<T, S> {
    // The proof stands here and not at `make`, so that a `make` that does not wipe is refused for the board that it leaves.
    fn wiped(mut table: T, mut store: S) -> Board<T, S>
        ensures { Stands (limits (T.Table.meaning table) (S.Store.holding store)) [] (T.Table.meaning result.table) (S.Store.holding result.store) }
    {
        table.wipe();
        store.wipe();
        Board { table, store }
    }

    // Whether the wait u -> v would close a circle: v is before u.
    fn closes(&self, u: u16, v: u16) -> bool
        ensures { passed ≡ wait_check (T.Table.meaning self.now.table).shuttles (T.Table.meaning self.now.table).moves u v → Closes (T.Table.meaning self.now.table) u v result }
    {
        let (answer, _rounds) = precedes(&self.table, v, u);
        answer.unwrap_or(false)
    }

    // The answer to a placement, up to the store's room. It asks everything before anything is written.
    fn judge(&self, u: u16, v: u16) -> Result<(), Refusal>
        ensures { Judged (T.Table.meaning self.now.table) (S.Store.holding self.now.store) u v result }
    {
        check_wait(self.table.sizes().aisle, u, v)?;
        let wait = Wait {
            first: u,
            second: v,
        };
        if self.store.has(wait) {
            return Err(Refusal::AlreadyHeld);
        }
        if self.closes(u, v) {
            return Err(Refusal::Circle);
        }
        if self.store.count() < self.store.capacity() {
            Ok(())
        } else {
            Err(Refusal::StoreFull)
        }
    }

    // Writes a wait into the table and the store, if it is taken.
    fn write_wait(&mut self, u: u16, v: u16) -> Result<(), Refusal>
        ensures does { Placing (T.Table.meaning self.old.table) (S.Store.holding self.old.store) u v result (T.Table.meaning self.new.table) (S.Store.holding self.new.store) }
        ensures refused { LeftAlone result self.old self.new }
    {
        self.judge(u, v)?;
        let (from, to) = (Code(u), Code(v));
        put_earlier(
            &mut self.table,
            from.shuttle(),
            to.shuttle(),
            from.place(),
            to.place(),
        )?;
        self.store.add(Wait {
            first: u,
            second: v,
        })
    }

    // Takes a wait out of the store, if it is there, and lets its cell hold what is left.
    fn erase_wait(&mut self, u: u16, v: u16) -> Result<(), Refusal>
        ensures few { (T.Table.meaning self.old.table).shuttles ≤ 16 }
        ensures does { Removing (T.Table.meaning self.old.table) (S.Store.holding self.old.store) u v result (T.Table.meaning self.new.table) (S.Store.holding self.new.store) }
        ensures refused { LeftAlone result self.old self.new }
    {
        check_wait(self.table.sizes().aisle, u, v)?;
        self.store.remove(Wait {
            first: u,
            second: v,
        })?;
        let (from, to) = (Code(u), Code(v));
        let left = self.store.earliest(u, to.shuttle());
        set_cell(
            &mut self.table,
            from.shuttle(),
            to.shuttle(),
            from.place(),
            left,
        );
        Ok(())
    }

    #[tactic(auto, using(crate::proofs::Keeps::finds_so))]
    fn find(&self, way: Way, u: u16, t: u16) -> (Result<Option<u16>, Refusal>, u32)
        ensures { FindsSo way (T.Table.meaning self.now.table) (S.Store.holding self.now.store) u t result.0 result.1 }
    {
        nearest(&self.table, way, u, t)
    }

    // A board without waits: its table and its store are wiped, whatever they held.
    pub fn make(table: T, store: S) -> Board<T, S>
        ensures { Stands (limits (T.Table.meaning table) (S.Store.holding store)) [] (T.Table.meaning result.table) (S.Store.holding result.store) }
    {
        Board::wiped(table, store)
    }

    // Places the wait u -> v: u must be done before v.
    #[tactic(auto, using(crate::proofs::Keeps::place_keeps))]
    pub fn place(&mut self, u: u16, v: u16) -> Result<(), Refusal>
        ensures keeps { PlaceKeeps (T.Table.meaning self.old.table) (S.Store.holding self.old.store) u v result (T.Table.meaning self.new.table) (S.Store.holding self.new.store) }
        ensures refused { LeftAlone result self.old self.new }
    {
        self.write_wait(u, v)
    }

    // Removes the wait u -> v.
    #[tactic(auto, using(crate::proofs::Keeps::remove_keeps))]
    pub fn remove(&mut self, u: u16, v: u16) -> Result<(), Refusal>
        ensures keeps { RemoveKeeps (T.Table.meaning self.old.table) (S.Store.holding self.old.store) u v result (T.Table.meaning self.new.table) (S.Store.holding self.new.store) }
        ensures refused { LeftAlone result self.old self.new }
    {
        self.erase_wait(u, v)
    }

    // Whether u is before v, and the rounds that it took.
    #[tactic(auto, using(crate::proofs::Keeps::tells_so))]
    pub fn before(&self, u: u16, v: u16) -> (Result<bool, Refusal>, u32)
        ensures { TellsSo (T.Table.meaning self.now.table) (S.Store.holding self.now.store) u v result.0 result.1 }
    {
        precedes(&self.table, u, v)
    }

    // The earliest move of t that has to follow u, and the rounds that it took.
    pub fn first_after(&self, u: u16, t: u16) -> (Result<Option<u16>, Refusal>, u32)
        ensures { FindsSo Way.After (T.Table.meaning self.now.table) (S.Store.holding self.now.store) u t result.0 result.1 }
    {
        self.find(Way::After, u, t)
    }

    // The latest move of t that has to come before u, and the rounds that it took.
    pub fn last_before(&self, u: u16, t: u16) -> (Result<Option<u16>, Refusal>, u32)
        ensures { FindsSo Way.Before (T.Table.meaning self.now.table) (S.Store.holding self.now.store) u t result.0 result.1 }
    {
        self.find(Way::Before, u, t)
    }

    // What the table's cell holds: the place on t of the earliest wait from the move i of s.
    pub fn cell(&self, s: u16, t: u16, i: u16) -> Result<Option<u16>, Refusal>
        ensures { result ≡ cell_answer (T.Table.meaning self.now.table) s t i }
    {
        self.table.cell(s, t, i)
    }

    // Writes a running order to the front of the slice, each time from the lowest shuttle whose next move is ready, and returns how many codes it wrote.
    #[tactic(auto, using(crate::proofs::Orders::lists_at))]
    pub fn list(&self, out: &mut [u16]) -> Result<usize, Refusal>
        ensures { ListsAt (T.Table.meaning self.now.table) (S.Store.holding self.now.store) out.old out.new result }
    {
        list(&self.table, out)
    }

    // The same with the moves before v first, v among them, and then with the rest.
    #[tactic(auto, using(crate::proofs::Orders::pushes_at))]
    pub fn push(&self, v: u16, out: &mut [u16]) -> Result<usize, Refusal>
        ensures { PushesAt (T.Table.meaning self.now.table) (S.Store.holding self.now.store) v out.old out.new result }
    {
        push(&self.table, v, out)
    }

    // Whether the codes are a running order.
    #[tactic(auto, using(crate::proofs::Orders::tests_at))]
    pub fn test(&self, codes: &[u16]) -> bool
        ensures { TestsAt (T.Table.meaning self.now.table) (S.Store.holding self.now.store) codes.now result }
    {
        test(&self.table, codes)
    }
}
