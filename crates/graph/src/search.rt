// A breadth-first search over the moves: along each shuttle, and along the waits.
use crate::codes::place_of;
use crate::links::Links;
use std::alloc::{AllocError, Global};
use std::mem;

// Which way to go: to the moves that have to follow, or to those that have to come before.
#[derive(Clone, Copy, PartialEq, Eq)]
pub(crate) enum Way {
    Forward,
    Backward,
}

// A set of moves. A set of the library would allocate, and no call on the graph may begin to fail.
#[derive(Drop)]
pub(crate) struct Marks {
    marks: Vec<bool>,
}

impl Marks {
    pub(crate) fn make(heap: Global, codes: usize) -> Result<Marks, AllocError> {
        Ok(Marks {
            marks: Vec::from_elem(heap, false, codes)?,
        })
    }

    // Puts every move in, or none.
    pub(crate) fn fill(&mut self, all: bool) {
        self.marks.as_mut_slice().fill(all);
    }

    pub(crate) fn has(&self, m: u16) -> bool {
        self.marks.get(m as usize).is_some_and(|mark| *mark)
    }

    // Puts the move in; whether it was not there before.
    pub(crate) fn add(&mut self, m: u16) -> bool {
        match self.marks.get_mut(m as usize) {
            Some(mark) => !mem::replace(mark, true),
            None => false,
        }
    }
}

// What a search has seen. The queue has room for all moves from the start, since no call on the graph may begin to fail.
#[derive(Drop)]
pub(crate) struct Search {
    pub(crate) seen: Marks,
    queue: Vec<u16>,
}

// The moves that a search has reached so far: they are marked, and the first `tail` of the queue. It borrows both, since the search took a sixth longer with its count behind a reference.
#[derive(Drop)]
struct Wave<'a> {
    seen: &'a mut Marks,
    queue: &'a mut [u16],
    tail: usize,
}

impl<'a> Wave<'a> {
    // Marks the move and queues it, unless it was seen.
    fn reach(&mut self, m: u16) {
        if let Some(place) = self.queue.get_mut(self.tail)
            && self.seen.add(m)
        {
            *place = m;
            self.tail = self.tail.saturating_add(1);
        }
    }

    // The move that was reached at this place of the queue.
    fn at(&self, place: usize) -> Option<u16> {
        if place < self.tail {
            self.queue.get(place).copied()
        } else {
            None
        }
    }
}

// The neighbour of the move on its own shuttle.
fn beside(way: Way, moves: u16, m: u16) -> Option<u16> {
    match way {
        Way::Forward => (place_of(m) + 1 < moves).then_some(m.saturating_add(1)),
        Way::Backward => (place_of(m) > 0).then_some(m.saturating_sub(1)),
    }
}

impl Search {
    pub(crate) fn make(heap: Global, codes: usize) -> Result<Search, AllocError> {
        Ok(Search {
            seen: Marks::make(heap, codes)?,
            queue: Vec::from_elem(heap, 0, codes)?,
        })
    }

    // Marks every move that is reached from the start, itself among them, or at least the goal, where that is reached.
    pub(crate) fn spread(
        &mut self,
        links: &Links,
        way: Way,
        moves: u16,
        start: u16,
        goal: Option<u16>,
    ) {
        self.seen.fill(false);
        let mut wave = Wave {
            seen: &mut self.seen,
            queue: self.queue.as_mut_slice(),
            tail: 0,
        };
        wave.reach(start);
        // by place, since the queue grows as it is gone through
        for place in 0..wave.queue.len() {
            let Some(m) = wave.at(place) else {
                return;
            };
            if goal.is_some_and(|g| wave.seen.has(g)) {
                return;
            }
            if let Some(b) = beside(way, moves, m) {
                wave.reach(b);
            }
            for (_, link) in links.of(m as usize) {
                wave.reach(link.end);
            }
        }
    }
}
