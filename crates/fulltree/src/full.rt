// The full tree, over a lent buffer: the stretch of the pair (s, t) of k shuttles begins at (s * k + t) * 2 p and is a tree over p leaves, where p is the smallest power of two not below the number of moves.
ghost use Rattle.std.specs.Prelude.{◌≡◌, ℕ, ◌+◌, ◌*◌, ◌^◌, ◌<◌, ◌≤◌, true, length};
ghost use Rattle.words.specs.Refusals.{if_done, LeftAlone};
ghost use Rattle.tables.specs.Meaning.{one, filled_of, wiped};
ghost use Rattle.tables.specs.Answers.{put_answer, put_after, clear_answer, clear_after};
ghost use Rattle.tables.specs.Plain.{encoded, wiped_front};
ghost use Rattle.fulltree.specs.Leaves.{leaves_of};
ghost use Rattle.fulltree.specs.Tree.{leaf, tree_sound, Tree};
ghost use Rattle.fulltree.specs.Full.{stretch, pair_of, full_stored, places, full_cell, tree_meaning, Pair, numbers_of, full_check, full_made, full_used};
ghost use Rattle.fulltree.specs.FullLaws.{full_lawful};

use crate::tree::{held, last, leaf_at, least, store};
use tables::checks::{check_cell, check_value, count_of};
use tables::lent::{Lent, check_buffer};
use tables::numbers::{decode, encode};
use tables::table::{Sizes, Table};
use words::Refusal;
use words::aisles::Aisle;

// How many leaves a tree for so many places has.
fn leaves_for(moves: u16) -> usize
    ensures is { result ≡ leaves_of moves }
    ensures few { result < 2 ^ 18 }
{
    (moves as usize).next_power_of_two()
}

// How many numbers a table takes.
pub fn numbers_of(aisle: Aisle) -> usize
    ensures { result ≡ numbers_of aisle.shuttles aisle.moves }
{
    let k = aisle.shuttles as usize;
    k * k * (2 * leaves_for(aisle.moves))
}

// Where the stretch of the pair (s, t) begins.
fn start_of(shuttles: u16, leaves: usize, s: u16, t: u16) -> usize
    requires { leaves < 65536 }
    ensures at { result ≡ pair_of shuttles s t * (2 * leaves) }
    ensures few { result < 2 ^ 50 }
{
    (s as usize * shuttles as usize + t as usize) * (2 * leaves)
}

// Whether a buffer of so many numbers serves a full tree of these sizes.
#[tactic(auto, unfolding(crate::specs::Full::full_check))]
pub fn check_full(aisle: Aisle, given: usize) -> Result<(), Refusal>
    ensures { result ≡ full_check aisle.shuttles aisle.moves given }
{
    check_buffer(aisle, numbers_of(aisle), given)
}

// The stretch of the pair (s, t), where each tree has so many leaves.
fn row<'b>(lent: &'b Lent<'_>, leaves: usize, s: u16, t: u16) -> &'b [u16]
    requires few { leaves < 65536 }
    requires inside { pair_of lent.now.aisle.shuttles s t * (2 * leaves) + 2 * leaves ≤ length lent.now.cells.now }
    ensures { result.now ≡ stretch (2 * leaves) lent.now.cells.now (pair_of lent.now.aisle.shuttles s t) }
{
    let a = start_of(lent.aisle.shuttles, leaves, s, t);
    &lent.cells[a..a + 2 * leaves]
}

// Makes the cell (s, t, i) hold the value, and keeps count of the filled cells. Only the pair's stretch is lent on.
fn write(lent: &mut Lent<'_>, leaves: usize, s: u16, t: u16, i: u16, value: Option<u16>)
    requires few { leaves < 65536 }
    requires inside { pair_of lent.old.aisle.shuttles s t * (2 * leaves) + 2 * leaves ≤ length lent.old.cells.now }
    requires place { i < leaves }
    requires counted { one (leaf leaves (stretch (2 * leaves) lent.old.cells.now (pair_of lent.old.aisle.shuttles s t)) i) ≤ lent.old.filled }
    requires room { lent.old.filled < 2 ^ 31 }
    ensures same { (lent.new.aisle ≡ lent.old.aisle) × (lent.new.used ≡ lent.old.used) }
    ensures filled { lent.new.filled + one (leaf leaves (stretch (2 * leaves) lent.old.cells.now (pair_of lent.old.aisle.shuttles s t)) i) ≡ lent.old.filled + one value }
    ensures numbers { lent.new.cells.now ≡ full_stored lent.old.aisle.shuttles leaves lent.old.cells.now s t i (encoded value) }
{
    let a = start_of(lent.aisle.shuttles, leaves, s, t);
    let was = decode(lent.cells[a + leaf_at(leaves, i)]);
    lent.filled = lent.filled + count_of(value) - count_of(was);
    store(&mut lent.cells[a..a + 2 * leaves], leaves, i, encode(value));
}

// The table. What holds of its numbers stands here and not in `Lent`, whose calls may break it on their way.
#[derive(Drop)]
pub struct FullTree<'a> {
    lent: Lent<'a>,
    // the leaves of each tree
    leaves: usize,
    ghost wide: { leaves ≡ leaves_of lent.aisle.moves },
    // a table with one shuttle has no cells, and may use nothing
    ghost some: { 1 < lent.aisle.shuttles → 0 < lent.used },
    ghost whole: { 0 < lent.used → lent.used ≡ lent.aisle.shuttles * lent.aisle.shuttles * (2 * leaves) },
    ghost trees: { (q : ℕ) → q * (2 * leaves) < lent.used → tree_sound (places lent.aisle.shuttles lent.aisle.moves q) leaves (stretch (2 * leaves) lent.cells.now q) ≡ true },
    ghost counted: { lent.filled ≡ filled_of lent.aisle.shuttles lent.aisle.moves (full_cell lent.aisle.shuttles lent.aisle.moves leaves lent.cells.now) },
}

impl<'a> FullTree<'a> {
    // An empty table over the buffer. Where the check refuses, the table has no cell, and the buffer stays as it was.
    pub fn make(aisle: Aisle, cells: &'a mut [u16]) -> FullTree<'a>
        ensures means { tree_meaning result.lent.aisle.shuttles result.lent.aisle.moves result.leaves result.lent.cells.now ≡ full_made aisle.shuttles aisle.moves (length cells.old) }
        ensures used { result.lent.used ≡ full_used aisle.shuttles aisle.moves (length cells.old) }
        ensures numbers { result.lent.cells.now ≡ wiped_front (full_used aisle.shuttles aisle.moves (length cells.old)) cells.old }
    {
        let lent = Lent::over(aisle, numbers_of(aisle), cells);
        let leaves = leaves_for(lent.aisle.moves);
        FullTree { lent, leaves }
    }

    // The stretch of two different shuttles, which is a tree.
    fn tree(&self, s: u16, t: u16) -> &[u16]
        requires { Pair self.now.lent.aisle.shuttles s t }
        ensures at { result.now ≡ stretch (2 * self.now.leaves) self.now.lent.cells.now (pair_of self.now.lent.aisle.shuttles s t) }
        ensures tree { Tree self.now.leaves result.now }
    {
        row(&self.lent, self.leaves, s, t)
    }
}

impl<'a> Table for FullTree<'a> {
    ghost meaning = { λ t. tree_meaning t.lent.aisle.shuttles t.lent.aisle.moves t.leaves t.lent.cells.now };

    ghost lawful = { λ t. full_lawful t.lent.aisle.shuttles t.lent.aisle.moves t.leaves t.lent.used t.lent.cells.now t.lent.small t.wide t.some t.whole t.trees };

    fn sizes(&self) -> Sizes {
        self.lent.sizes()
    }

    fn cell(&self, s: u16, t: u16, i: u16) -> Result<Option<u16>, Refusal> {
        check_cell(self.lent.aisle, s, t, i)?;
        Ok(held(self.tree(s, t), self.leaves, i))
    }

    fn wipe(&mut self)
        ensures after { tree_meaning self.new.lent.aisle.shuttles self.new.lent.aisle.moves self.new.leaves self.new.lent.cells.now ≡ wiped (tree_meaning self.old.lent.aisle.shuttles self.old.lent.aisle.moves self.old.leaves self.old.lent.cells.now) }
        ensures used { self.new.lent.used ≡ self.old.lent.used }
        ensures numbers { self.new.lent.cells.now ≡ wiped_front self.old.lent.used self.old.lent.cells.now }
    {
        self.lent.blank();
    }

    fn put(&mut self, s: u16, t: u16, i: u16, j: u16) -> Result<(), Refusal>
        ensures answer { result ≡ put_answer (tree_meaning self.old.lent.aisle.shuttles self.old.lent.aisle.moves self.old.leaves self.old.lent.cells.now) s t i j }
        ensures after { tree_meaning self.new.lent.aisle.shuttles self.new.lent.aisle.moves self.new.leaves self.new.lent.cells.now ≡ put_after (tree_meaning self.old.lent.aisle.shuttles self.old.lent.aisle.moves self.old.leaves self.old.lent.cells.now) s t i j }
        ensures refused { LeftAlone result self.old self.new }
        ensures numbers { self.new.lent.cells.now ≡ if_done result self.old.lent.cells.now (full_stored self.old.lent.aisle.shuttles self.old.leaves self.old.lent.cells.now s t i j) }
    {
        check_cell(self.lent.aisle, s, t, i)?;
        check_value(self.lent.aisle, j)?;
        write(&mut self.lent, self.leaves, s, t, i, Some(j));
        Ok(())
    }

    fn clear(&mut self, s: u16, t: u16, i: u16) -> Result<(), Refusal>
        ensures answer { result ≡ clear_answer (tree_meaning self.old.lent.aisle.shuttles self.old.lent.aisle.moves self.old.leaves self.old.lent.cells.now) s t i }
        ensures after { tree_meaning self.new.lent.aisle.shuttles self.new.lent.aisle.moves self.new.leaves self.new.lent.cells.now ≡ clear_after (tree_meaning self.old.lent.aisle.shuttles self.old.lent.aisle.moves self.old.leaves self.old.lent.cells.now) s t i }
        ensures refused { LeftAlone result self.old self.new }
        ensures numbers { self.new.lent.cells.now ≡ if_done result self.old.lent.cells.now (full_stored self.old.lent.aisle.shuttles self.old.leaves self.old.lent.cells.now s t i 65535) }
    {
        check_cell(self.lent.aisle, s, t, i)?;
        write(&mut self.lent, self.leaves, s, t, i, None);
        Ok(())
    }

    fn least(&self, s: u16, t: u16, i: u16) -> Result<Option<u16>, Refusal> {
        check_cell(self.lent.aisle, s, t, i)?;
        Ok(least(self.tree(s, t), self.leaves, i))
    }

    fn last(&self, s: u16, t: u16, j: u16) -> Result<Option<u16>, Refusal> {
        check_cell(self.lent.aisle, s, t, j)?;
        Ok(last(self.tree(s, t), self.leaves, j))
    }
}
