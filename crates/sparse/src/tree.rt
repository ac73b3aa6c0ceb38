// Trees of entries in a slice of records. A node covers the places from lo and below hi and holds the entry of these that stands above all others that no node above holds: the smallest value, and of equal values the one at the greatest place. Its left child covers the lower half of its range, its right child the upper half.
ghost use Rattle.std.specs.Prelude.{◌≡◌, ℕ, ◌<◌, ◌≤◌, true, false, ◌≢◌, ◌⊎◌, length, Some, Option as Opt, slice_set};
ghost use Rattle.sparse.specs.Trees.{Tree, At, In, Above, Shows, Found, Least, Last, later, Lacks, Inserted, Top, Chosen, Cut};
ghost use Rattle.sparse.specs.declared.record.Record.TheVariants.{Free, Used};

use crate::record::{Choice, Entry, Node, Ranked, Record, Rest};
use tables::checks::smaller;

// The node in a record that is in use.
fn read(records: &[Record], a: u16) -> Node
    requires { (n : Node) × At records.now a (Used n) }
    ensures { At records.now a (Used result) }
{
    match records[a as usize] {
        Record::Used(node) => node,
        Record::Free(_) => unreachable(),
    }
}

fn write(records: &mut [Record], a: u16, node: Node)
    requires { a < length records.old }
    ensures { records.new ≡ slice_set records.old a (Used node) }
{
    records[a as usize] = Record::Used(node);
}

fn free(records: &mut [Record], a: u16, next: Option<u16>)
    requires { a < length records.old }
    ensures { records.new ≡ slice_set records.old a (Free next) }
{
    records[a as usize] = Record::Free(next);
}

// The records, a node's place in them and its range go with each walk: a struct of the four would have to hold as a fact that a tree stands there, which has no one proof.
// The value at a place.
pub(crate) fn find(records: &[Record], at: Option<u16>, lo: u16, hi: u16, place: u16) -> Option<u16>
    requires low { lo ≤ hi }
    requires small { hi ≤ 4096 }
    requires stands { (g : ℕ) × (t : Tree) × Shows g records.now at lo hi t }
    ensures { (g : ℕ) (t : Tree) → Shows g records.now at lo hi t → Found t place result }
{
    match at {
        None => None,
        Some(a) => {
            let node = read(records, a);
            let mid = (lo + hi) / 2;
            if node.entry.place == place {
                Some(node.entry.value)
            } else if place < mid {
                find(records, node.left, lo, mid, place)
            } else {
                find(records, node.right, mid, hi, place)
            }
        }
    }
}

// The smallest value from place i on. A node at i or later holds it; else its entry does not count, and its lower half is left out where it ends before i.
pub(crate) fn least(records: &[Record], at: Option<u16>, lo: u16, hi: u16, i: u16) -> Option<u16>
    requires low { lo ≤ hi }
    requires small { hi ≤ 4096 }
    requires stands { (g : ℕ) × (t : Tree) × Shows g records.now at lo hi t }
    ensures { (g : ℕ) (t : Tree) → Shows g records.now at lo hi t → Least t i result }
{
    match at {
        None => None,
        Some(a) => {
            let node = read(records, a);
            let mid = (lo + hi) / 2;
            if node.entry.place >= i {
                Some(node.entry.value)
            } else if mid <= i {
                least(records, node.right, mid, hi, i)
            } else {
                let l = least(records, node.left, lo, mid, i);
                let r = least(records, node.right, mid, hi, i);
                smaller(l, r)
            }
        }
    }
}

// The later of a place that may be missing and another.
fn later_of(a: Option<u16>, b: u16) -> u16
    ensures { result ≡ later a b }
{
    a.map_or(b, |x| x.max(b))
}

// The greatest place whose value is at most j. Below a node with a greater value there is none; the lower half matters only where the upper one has none, and the node's own entry lies in the lower half too.
pub(crate) fn last(records: &[Record], at: Option<u16>, lo: u16, hi: u16, j: u16) -> Option<u16>
    requires low { lo ≤ hi }
    requires small { hi ≤ 4096 }
    requires stands { (g : ℕ) × (t : Tree) × Shows g records.now at lo hi t }
    ensures { (g : ℕ) (t : Tree) → Shows g records.now at lo hi t → Last t j result }
{
    match at {
        None => None,
        Some(a) => {
            let node = read(records, a);
            let mid = (lo + hi) / 2;
            if node.entry.value > j {
                return None;
            }
            match last(records, node.right, mid, hi, j) {
                Some(q) => Some(later_of(Some(q), node.entry.place)),
                None => {
                    if mid <= node.entry.place {
                        return Some(node.entry.place);
                    }
                    let l = last(records, node.left, lo, mid, j);
                    Some(later_of(l, node.entry.place))
                }
            }
        }
    }
}

// Whether a stands above b.
fn stands_above(a: Entry, b: Entry) -> bool
    requires { a.place ≢ b.place }
    ensures { (result ≡ true → Above a b) × (result ≡ false → Above b a) }
{
    (a.value, b.place) < (b.value, a.place)
}

fn rank(a: Entry, b: Entry) -> Ranked
    requires { a.place ≢ b.place }
    ensures above { Above result.up result.down }
    ensures both { ((result.up ≡ a) × (result.down ≡ b)) ⊎ ((result.up ≡ b) × (result.down ≡ a)) }
{
    if stands_above(a, b) {
        Ranked { up: a, down: b }
    } else {
        Ranked { up: b, down: a }
    }
}

// Puts the entry into the tree that starts at `at`, and says where it starts then. Of the entry and that of a node the upper one stays, and the other goes down to the half that has its place; the last one gets the free record `fresh`.
pub(crate) fn insert(
    records: &mut [Record],
    tree: u16,
    at: Option<u16>,
    lo: u16,
    hi: u16,
    fresh: u16,
    entry: Entry,
) -> u16
    requires low { lo ≤ entry.place }
    requires high { entry.place < hi }
    requires small { hi ≤ 4096 }
    requires free { (n : Opt ℕ) × At records.old fresh (Free n) }
    requires stands { (t : Tree) × Shows tree records.old at lo hi t × Lacks entry.place t }
    ensures { (t : Tree) → Shows tree records.old at lo hi t → Lacks entry.place t → Inserted tree records.old records.new t result lo hi fresh entry }
{
    match at {
        None => {
            write(
                records,
                fresh,
                Node {
                    tree,
                    entry,
                    left: None,
                    right: None,
                },
            );
            fresh
        }
        Some(a) => {
            let node = read(records, a);
            let mid = (lo + hi) / 2;
            let ranked = rank(entry, node.entry);
            if ranked.down.place < mid {
                let left = insert(records, tree, node.left, lo, mid, fresh, ranked.down);
                write(
                    records,
                    a,
                    Node {
                        tree,
                        entry: ranked.up,
                        left: Some(left),
                        right: node.right,
                    },
                );
            } else {
                let right = insert(records, tree, node.right, mid, hi, fresh, ranked.down);
                write(
                    records,
                    a,
                    Node {
                        tree,
                        entry: ranked.up,
                        left: node.left,
                        right: Some(right),
                    },
                );
            }
            a
        }
    }
}

// The child from which a node's next entry comes: the one whose entry stands above the other's.
fn choose(
    records: &[Record],
    left: Option<u16>,
    right: Option<u16>,
    lo: u16,
    mid: u16,
    hi: u16,
) -> Choice
    requires left { (g : ℕ) × (l : Tree) × Shows g records.now left lo mid l }
    requires right { (g : ℕ) × (r : Tree) × Shows g records.now right mid hi r }
    ensures { (g : ℕ) (l r : Tree) → Shows g records.now left lo mid l → Shows g records.now right mid hi r → Chosen left right l r result }
{
    match (left, right) {
        (None, None) => Choice::Neither,
        (Some(l), None) => Choice::Left(l, read(records, l).entry),
        (None, Some(r)) => Choice::Right(r, read(records, r).entry),
        (Some(l), Some(r)) => {
            let a = read(records, l).entry;
            let b = read(records, r).entry;
            if stands_above(a, b) {
                Choice::Left(l, a)
            } else {
                Choice::Right(r, b)
            }
        }
    }
}

// Takes the entry of the node at a out of its tree: entries come up from below, and the last record on the way is free.
fn pull(records: &mut [Record], tree: u16, a: u16, lo: u16, hi: u16, next: Option<u16>) -> Rest
    requires small { hi ≤ 4096 }
    requires stands { (t : Tree) × Shows tree records.old (Some a) lo hi t }
    ensures { (t : Tree) (e : Entry) → Shows tree records.old (Some a) lo hi t → Top e t → Cut tree records.old records.new t result.link lo hi result.freed next e.place }
{
    let node = read(records, a);
    let mid = (lo + hi) / 2;
    match choose(records, node.left, node.right, lo, mid, hi) {
        Choice::Neither => {
            free(records, a, next);
            Rest {
                link: None,
                freed: a,
            }
        }
        Choice::Left(c, entry) => {
            let rest = pull(records, tree, c, lo, mid, next);
            write(
                records,
                a,
                Node {
                    tree,
                    entry,
                    left: rest.link,
                    right: node.right,
                },
            );
            Rest {
                link: Some(a),
                freed: rest.freed,
            }
        }
        Choice::Right(c, entry) => {
            let rest = pull(records, tree, c, mid, hi, next);
            write(
                records,
                a,
                Node {
                    tree,
                    entry,
                    left: node.left,
                    right: rest.link,
                },
            );
            Rest {
                link: Some(a),
                freed: rest.freed,
            }
        }
    }
}

// Takes the entry at a place, which is there, out of the tree.
pub(crate) fn remove(
    records: &mut [Record],
    tree: u16,
    at: Option<u16>,
    lo: u16,
    hi: u16,
    place: u16,
    next: Option<u16>,
) -> Rest
    requires small { hi ≤ 4096 }
    requires stands { (t : Tree) × Shows tree records.old at lo hi t × ((e : Entry) × In e t × (e.place ≡ place)) }
    ensures { (t : Tree) → Shows tree records.old at lo hi t → Cut tree records.old records.new t result.link lo hi result.freed next place }
{
    match at {
        None => unreachable(),
        Some(a) => {
            let node = read(records, a);
            let mid = (lo + hi) / 2;
            if node.entry.place == place {
                pull(records, tree, a, lo, hi, next)
            } else if place < mid {
                let rest = remove(records, tree, node.left, lo, mid, place, next);
                write(
                    records,
                    a,
                    Node {
                        tree,
                        entry: node.entry,
                        left: rest.link,
                        right: node.right,
                    },
                );
                Rest {
                    link: Some(a),
                    freed: rest.freed,
                }
            } else {
                let rest = remove(records, tree, node.right, mid, hi, place, next);
                write(
                    records,
                    a,
                    Node {
                        tree,
                        entry: node.entry,
                        left: node.left,
                        right: rest.link,
                    },
                );
                Rest {
                    link: Some(a),
                    freed: rest.freed,
                }
            }
        }
    }
}
