// What a sparse tree is made of: entries, the nodes that hold them, and the records of the lent slice.

// A filled cell: its place, and its value.
#[derive(Clone, Copy)]
pub struct Entry {
    pub place: u16,
    pub value: u16,
}

// A node: the number of its tree, its entry, and the records of its children, one in each half of its range.
#[derive(Clone, Copy)]
pub struct Node {
    pub tree: u16,
    pub entry: Entry,
    pub left: Option<u16>,
    pub right: Option<u16>,
}

// A record: a node, or free, with the next free one.
#[derive(Clone, Copy)]
pub enum Record {
    Free(Option<u16>),
    Used(Node),
}

// Which child's entry stands above the other's: its record and that entry. Each case is an arm of one match, which an option of a side would take twice.
#[derive(Clone, Copy)]
pub enum Choice {
    Neither,
    Left(u16, Entry),
    Right(u16, Entry),
}

// Of two entries, the one that stands above the other in a tree, and the other.
#[derive(Clone, Copy)]
pub struct Ranked {
    pub up: Entry,
    pub down: Entry,
}

// What is left of a tree once an entry went, and the record that is free now.
#[derive(Clone, Copy)]
pub struct Rest {
    pub link: Option<u16>,
    pub freed: u16,
}
