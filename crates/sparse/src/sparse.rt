// The sparse tree: a table that takes one record for each filled cell.
ghost use Rattle.std.specs.Prelude.{◌≡◌, ℕ, ◌+◌, ◌-◌, ◌<◌, ◌≤◌, true, List, length, Some, None, Option as Opt, nat_le, slice_index_or};
ghost use Rattle.words.specs.Refusals.{if_done};
ghost use Rattle.tables.specs.Meaning.{Small, filled_of, least_of, last_of};
ghost use Rattle.tables.specs.Answers.{sizable};
ghost use Rattle.sparse.specs.declared.record.Record.TheVariants.{Free};
ghost use Rattle.sparse.specs.Trees.{At};
ghost use Rattle.sparse.specs.Form.{held_in, tree_formed, chained, Chain, trees, tree_number, Good, Changed};
ghost use Rattle.sparse.specs.Sparse.{sparse_cell, sparse_meaning, sparse_used, sparse_made};
ghost use Rattle.sparse.specs.SparseLaws.{sparse_lawful};

use crate::record::{Entry, Record};
use crate::tree::{find, insert, last, least, remove};
use tables::checks::{check_cell, check_sizes, check_value};
use tables::table::{Sizes, Table};
use words::Refusal;
use words::aisles::Aisle;

// Links are 16-bit numbers, so no more records are used.
const MOST: usize = 65535;

// One tree for each ordered pair of sixteen shuttles.
const TREES: usize = 256;

// The number of the tree of the shuttles s and t.
fn tree_of(s: u16, t: u16) -> u16
    requires { (s < 16) × (t < 16) }
    ensures { result ≡ tree_number s t }
{
    s * 16 + t
}

// Whether a sparse tree can have these sizes. Any number of records serves.
pub fn check_sparse(aisle: Aisle) -> Result<(), Refusal>
    ensures { result ≡ sizable aisle.shuttles aisle.moves }
{
    check_sizes(aisle)
}

// Frees every record, and says which one is the first.
fn release(records: &mut [Record]) -> Option<u16>
    requires { length records.old ≤ 65535 }
    ensures { (us : List ℕ) × Chain records.new result us × (length us ≡ length records.new) }
{
    let mut head = None;
    for (i, record) in records.iter_mut().enumerate() {
        *record = Record::Free(head);
        head = Some(i as u16);
    }
    head
}

// The first records of a slice.
fn front(records: &mut [Record], used: usize) -> &mut [Record]
    requires { used ≤ length records.old }
    ensures { length result.now ≡ used }
{
    let (front, _) = records.split_at_mut(used);
    front
}

// The free record after a free one.
fn next_free(records: &[Record], a: u16) -> Option<u16>
    requires { (n : Opt ℕ) × At records.now a (Free n) }
    ensures { At records.now a (Free result) }
{
    match records[a as usize] {
        Record::Free(next) => next,
        Record::Used(_) => unreachable(),
    }
}

// Roots of trees without an entry.
fn no_roots() -> [Option<u16>; TREES]
    ensures { (g : ℕ) → slice_index_or result g None ≡ None }
{
    [None; TREES]
}

// The trees of all pairs: the aisle, how many cells are filled, the first free record, the root of each tree, and the records.
#[derive(Drop)]
struct Forest<'a> {
    aisle: Aisle,
    filled: u32,
    head: Option<u16>,
    roots: [Option<u16>; TREES],
    records: &'a mut [Record],
    ghost small: { Small aisle.shuttles aisle.moves },
    ghost few: { length records.now ≤ 65535 },
    // the records in use are the nodes of the trees, each in one of them, and all others are free
    ghost formed: { (g : ℕ) → g < trees → tree_formed aisle.moves roots records.now g ≡ true },
    ghost within: { filled ≤ length records.now },
    ghost spare: { chained (length records.now - filled) records.now head ≡ true },
}

impl<'a> Forest<'a> {
    // A table without an entry.
    fn empty(aisle: Aisle, records: &'a mut [Record]) -> Forest<'a>
        requires few { length records.old ≤ 65535 }
        requires small { Small aisle.shuttles aisle.moves }
        ensures sized { (result.aisle ≡ aisle) × (length result.records.now ≡ length records.old) × (result.filled ≡ 0) }
        ensures none { (g p : ℕ) → held_in result.aisle.moves result.roots result.records.now g p ≡ None }
    {
        let head = release(records);
        let roots = no_roots();
        Forest {
            aisle,
            filled: 0,
            head,
            roots,
            records,
        }
    }

    // A table without an entry; where the check refuses, no record is used.
    fn over(aisle: Aisle, records: &'a mut [Record]) -> Forest<'a>
        ensures shuttles { result.aisle.shuttles ≡ if_done (sizable aisle.shuttles aisle.moves) 1 aisle.shuttles }
        ensures moves { result.aisle.moves ≡ if_done (sizable aisle.shuttles aisle.moves) 1 aisle.moves }
        ensures used { length result.records.now ≡ sparse_used aisle.shuttles aisle.moves (length records.old) }
        ensures filled { result.filled ≡ 0 }
        ensures none { (g p : ℕ) → held_in result.aisle.moves result.roots result.records.now g p ≡ None }
    {
        match check_sparse(aisle) {
            Err(_) => Forest::empty(Aisle::new(1, 1), front(records, 0)),
            Ok(()) => {
                let used = records.len().min(MOST);
                Forest::empty(aisle, front(records, used))
            }
        }
    }

    // Empties every tree.
    fn blank(&mut self)
        ensures same { (self.new.aisle ≡ self.old.aisle) × (length self.new.records.now ≡ length self.old.records.now) × (self.new.filled ≡ 0) }
        ensures none { (g p : ℕ) → held_in self.new.aisle.moves self.new.roots self.new.records.now g p ≡ None }
    {
        self.head = release(self.records);
        self.roots = no_roots();
        self.filled = 0;
    }

    // What a tree holds at a place.
    fn cell(&self, tree: u16, place: u16) -> Option<u16>
        requires inside { tree < trees }
        ensures { result ≡ held_in self.now.aisle.moves self.now.roots self.now.records.now tree place }
    {
        find(
            self.records,
            self.roots[tree as usize],
            0,
            self.aisle.moves,
            place,
        )
    }

    // The smallest value of a tree from place i on.
    fn least(&self, tree: u16, i: u16) -> Option<u16>
        requires inside { tree < trees }
        ensures { result ≡ least_of (held_in self.now.aisle.moves self.now.roots self.now.records.now tree) i self.now.aisle.moves }
    {
        least(
            self.records,
            self.roots[tree as usize],
            0,
            self.aisle.moves,
            i,
        )
    }

    // The greatest place of a tree whose value is at most j.
    fn last(&self, tree: u16, j: u16) -> Option<u16>
        requires inside { tree < trees }
        ensures { result ≡ last_of (held_in self.now.aisle.moves self.now.roots self.now.records.now tree) j self.now.aisle.moves }
    {
        last(
            self.records,
            self.roots[tree as usize],
            0,
            self.aisle.moves,
            j,
        )
    }

    // Whether every record is in use.
    fn is_full(&self) -> bool
        ensures { result ≡ nat_le (length self.now.records.now) self.now.filled }
    {
        self.filled as usize >= self.records.len()
    }

    // The free record after this one.
    fn next(&self, a: u16) -> Option<u16>
        requires { (n : Opt ℕ) × At self.now.records.now a (Free n) }
        ensures { At self.now.records.now a (Free result) }
    {
        next_free(self.records, a)
    }

    // Fills an empty cell of a tree: its entry takes the first free record.
    fn fill(&mut self, tree: u16, new: Entry)
        requires inside { tree < trees }
        requires place { new.place < self.old.aisle.moves }
        requires value { new.value < self.old.aisle.moves }
        requires empty { held_in self.old.aisle.moves self.old.roots self.old.records.now tree new.place ≡ None }
        requires room { self.old.filled < length self.old.records.now }
        ensures same { (self.new.aisle ≡ self.old.aisle) × (length self.new.records.now ≡ length self.old.records.now) }
        ensures filled { self.new.filled ≡ self.old.filled + 1 }
        ensures cells { Changed self.old.aisle.moves self.old.roots self.old.records.now self.new.roots self.new.records.now tree new.place (Some new.value) }
    {
        match self.head {
            None => unreachable(),
            Some(fresh) => {
                let next = self.next(fresh);
                let at = self.roots[tree as usize];
                let n = self.aisle.moves;
                let root = insert(self.records, tree, at, 0, n, fresh, new);
                self.roots[tree as usize] = Some(root);
                self.head = next;
                self.filled += 1;
            }
        }
    }

    // Empties a filled cell of a tree: its record is the first free one.
    fn empty_cell(&mut self, tree: u16, place: u16)
        requires inside { tree < trees }
        requires held { (v : ℕ) × (held_in self.old.aisle.moves self.old.roots self.old.records.now tree place ≡ Some v) }
        requires some { 0 < self.old.filled }
        ensures same { (self.new.aisle ≡ self.old.aisle) × (length self.new.records.now ≡ length self.old.records.now) }
        ensures filled { self.new.filled + 1 ≡ self.old.filled }
        ensures cells { Changed self.old.aisle.moves self.old.roots self.old.records.now self.new.roots self.new.records.now tree place None }
    {
        let at = self.roots[tree as usize];
        let n = self.aisle.moves;
        let head = self.head;
        let rest = remove(self.records, tree, at, 0, n, place, head);
        self.roots[tree as usize] = rest.link;
        self.head = Some(rest.freed);
        self.filled -= 1;
    }

    // Gives a filled cell of a tree another value: its entry goes out and comes in again, and needs no other record.
    fn refill(&mut self, tree: u16, new: Entry)
        requires inside { tree < trees }
        requires place { new.place < self.old.aisle.moves }
        requires value { new.value < self.old.aisle.moves }
        requires held { (v : ℕ) × (held_in self.old.aisle.moves self.old.roots self.old.records.now tree new.place ≡ Some v) }
        requires some { 0 < self.old.filled }
        ensures same { (self.new.aisle ≡ self.old.aisle) × (length self.new.records.now ≡ length self.old.records.now) }
        ensures filled { self.new.filled ≡ self.old.filled }
        ensures cells { Changed self.old.aisle.moves self.old.roots self.old.records.now self.new.roots self.new.records.now tree new.place (Some new.value) }
    {
        self.empty_cell(tree, new.place);
        self.fill(tree, new);
    }
}

// The table.
#[derive(Drop)]
pub struct SparseTree<'a> {
    forest: Forest<'a>,
    ghost counted: { forest.filled ≡ filled_of forest.aisle.shuttles forest.aisle.moves (sparse_cell forest.aisle.shuttles forest.aisle.moves forest.roots forest.records.now) },
}

impl<'a> SparseTree<'a> {
    // An empty table over the records, of which it uses 65,535 at most. Where the check refuses, the table has no cell, and uses none.
    pub fn make(aisle: Aisle, records: &'a mut [Record]) -> SparseTree<'a>
        ensures means { sparse_meaning result.forest.aisle.shuttles result.forest.aisle.moves result.forest.roots result.forest.records.now ≡ sparse_made aisle.shuttles aisle.moves (length records.old) }
    {
        SparseTree {
            forest: Forest::over(aisle, records),
        }
    }
}

impl<'a> Table for SparseTree<'a> {
    ghost meaning = { λ t. sparse_meaning t.forest.aisle.shuttles t.forest.aisle.moves t.forest.roots t.forest.records.now };

    ghost lawful = { λ t. sparse_lawful t.forest.aisle.shuttles t.forest.aisle.moves t.forest.filled t.forest.roots t.forest.records.now t.forest.small t.forest.within t.forest.formed t.counted };

    fn sizes(&self) -> Sizes {
        Sizes {
            aisle: self.forest.aisle,
            capacity: self.forest.records.len() as u32,
            filled: self.forest.filled,
        }
    }

    fn cell(&self, s: u16, t: u16, i: u16) -> Result<Option<u16>, Refusal> {
        check_cell(self.forest.aisle, s, t, i)?;
        Ok(self.forest.cell(tree_of(s, t), i))
    }

    fn wipe(&mut self) {
        self.forest.blank();
    }

    fn put(&mut self, s: u16, t: u16, i: u16, j: u16) -> Result<(), Refusal> {
        check_cell(self.forest.aisle, s, t, i)?;
        check_value(self.forest.aisle, j)?;
        let tree = tree_of(s, t);
        let entry = Entry { place: i, value: j };
        match self.forest.cell(tree, i) {
            Some(_) => self.forest.refill(tree, entry),
            None => {
                if self.forest.is_full() {
                    return Err(Refusal::TableFull);
                }
                self.forest.fill(tree, entry);
            }
        }
        Ok(())
    }

    fn clear(&mut self, s: u16, t: u16, i: u16) -> Result<(), Refusal> {
        check_cell(self.forest.aisle, s, t, i)?;
        let tree = tree_of(s, t);
        match self.forest.cell(tree, i) {
            Some(_) => self.forest.empty_cell(tree, i),
            None => {}
        }
        Ok(())
    }

    fn least(&self, s: u16, t: u16, i: u16) -> Result<Option<u16>, Refusal> {
        check_cell(self.forest.aisle, s, t, i)?;
        Ok(self.forest.least(tree_of(s, t), i))
    }

    fn last(&self, s: u16, t: u16, j: u16) -> Result<Option<u16>, Refusal> {
        check_cell(self.forest.aisle, s, t, j)?;
        Ok(self.forest.last(tree_of(s, t), j))
    }
}
