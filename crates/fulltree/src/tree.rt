// One tree of least values over p leaves, in a row of 2 p numbers: the leaf of the place i is the number p + i, and the number q with 0 < q < p is the smaller of the numbers 2 q and 2 q + 1.
ghost use Rattle.std.specs.Prelude.{◌≡◌, ◌+◌, ◌*◌, ◌/◌, ◌<◌, length};
ghost use Rattle.tables.specs.Meaning.{least_of, last_of};
ghost use Rattle.fulltree.specs.Tree.{node, leaf, lower, Tree, stored, best_with_right, way_down};

use tables::checks::smaller;
use tables::numbers::decode;

// Where the leaf of the place i is.
pub(crate) fn leaf_at(leaves: usize, i: u16) -> usize
    requires { leaves < 65536 }
    ensures { result ≡ leaves + i }
{
    leaves + i as usize
}

// The smaller of the two numbers below q.
fn lower(row: &[u16], q: usize) -> u16
    requires { 2 * q + 1 < length row.now }
    ensures { result ≡ lower row.now q }
{
    row[2 * q].min(row[2 * q + 1])
}

// The smaller of best and the number beside q, where q is the left one of two.
fn with_right(row: &[u16], best: Option<u16>, q: usize) -> Option<u16>
    requires { 2 * (q / 2) + 1 < length row.now }
    ensures { result ≡ best_with_right (node row.now) best q }
{
    if q % 2 == 0 {
        smaller(best, decode(row[q + 1]))
    } else {
        best
    }
}

// The one of the two below q to go on with: the right one, where its number is at most j.
fn way_down(row: &[u16], j: u16, q: usize) -> usize
    requires { 2 * q + 1 < length row.now }
    ensures { result ≡ way_down row.now j q }
{
    let right = 2 * q + 1;
    if row[right] <= j { right } else { 2 * q }
}

// That the row is a tree stands at each of the three that ask it: a struct's fact has one proof, and this one holds the number of halvings.
// What the place i holds.
pub(crate) fn held(row: &[u16], leaves: usize, i: u16) -> Option<u16>
    requires tree { Tree leaves row.now }
    requires inside { i < leaves }
    ensures { result ≡ leaf leaves row.now i }
{
    decode(row[leaf_at(leaves, i)])
}

// Writes the number at the leaf of the place i, and mends each number above it.
pub(crate) fn store(row: &mut [u16], leaves: usize, i: u16, number: u16)
    requires long { length row.old ≡ 2 * leaves }
    requires few { leaves < 65536 }
    requires inside { i < leaves }
    ensures { row.new ≡ stored leaves row.old i number }
{
    let mut q = leaf_at(leaves, i);
    row[q] = number;
    'mend: while q > 1 {
        q /= 2;
        row[q] = lower(row, q);
    }
}

// The smallest value from the place i on: that of its leaf and, on the way to the top, of each number that stands to the right of the way.
pub(crate) fn least(row: &[u16], leaves: usize, i: u16) -> Option<u16>
    requires tree { Tree leaves row.now }
    requires inside { i < leaves }
    ensures { result ≡ least_of (leaf leaves row.now) i leaves }
{
    let mut q = leaf_at(leaves, i);
    let mut best = decode(row[q]);
    'up: while q > 1 {
        best = with_right(row, best, q);
        q /= 2;
    }
    best
}

// The greatest place that holds at most j: from the top down, always as far to the right as such a place is.
pub(crate) fn last(row: &[u16], leaves: usize, j: u16) -> Option<u16>
    requires tree { Tree leaves row.now }
    requires value { j < 65535 }
    ensures { result ≡ last_of (leaf leaves row.now) j leaves }
{
    if row[1] > j {
        return None;
    }
    let mut q = 1;
    'down: while q < leaves {
        q = way_down(row, j, q);
    }
    Some((q - leaves) as u16)
}
