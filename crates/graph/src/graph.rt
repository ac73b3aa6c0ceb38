// An aisle as a graph: its moves, its waits as links between them, and the calls of a board answered by searching.
ghost use Rattle.std.specs.Prelude.{◌^◌, ◌<◌, ◌≤◌, length};

use crate::codes::{place_of, shuttle_of};
use crate::links::Links;
use crate::search::{Marks, Search, Way};
use runs::calls::{Answer, Ask, Outcome};
use std::alloc::{AllocError, Global};
use words::Refusal;

// How large a board is: its shuttles, the moves of each, the waits that its store holds at most, and the cells that its table fills at most.
// These are numbers, and a wait below has a type of its own: the search shares with the product the words for calls and answers, and nothing else.
#[derive(Clone, Copy, PartialEq, Eq, Debug)]
pub struct Limits {
    pub shuttles: u16,
    pub moves: u16,
    pub waits: u16,
    pub cells: u32,
}

impl Limits {
    // Those of a board whose table can fill every cell.
    pub fn whole(shuttles: u16, moves: u16, waits: u16) -> Limits {
        let pairs = (shuttles as u32).wrapping_mul((shuttles as u32).saturating_sub(1));
        Limits {
            shuttles,
            moves,
            waits,
            cells: pairs.wrapping_mul(moves as u32),
        }
    }
}

// A wait, by its two moves.
#[derive(Clone, Copy)]
struct Wait {
    first: u16,
    second: u16,
}

// Moves go by their codes. The waits hang in two lists each, so that a search can go both ways.
#[derive(Drop)]
pub struct Graph {
    limits: Limits,
    // how many pairs of a move and a shuttle have a wait from the one to the other
    filled: u32,
    // the waits by their first move; the last list has the links that are free
    leaving: Links,
    // the waits by their second move
    entering: Links,
    search: Search,
    // the moves that a list has so far
    listed: Marks,
}

// The code of a move.
pub fn code(shuttle: u16, place: u16) -> u16 {
    shuttle.wrapping_mul(4096).wrapping_add(place)
}

// How many codes the shuttles have.
fn codes_of(limits: Limits) -> usize
    ensures { result < 2 ^ 32 }
{
    limits.shuttles as usize * 4096
}

impl Graph {
    // A graph without waits. There are at most 16 shuttles and 4,096 moves.
    pub fn make(heap: Global, limits: Limits) -> Result<Graph, AllocError> {
        let codes = codes_of(limits);
        let links = limits.waits as usize;
        let mut leaving = Links::make(heap, codes + 1, links)?;
        for link in 0..limits.waits {
            leaving.hang(codes, link, 0);
        }
        Ok(Graph {
            limits,
            filled: 0,
            leaving,
            entering: Links::make(heap, codes, links)?,
            search: Search::make(heap, codes)?,
            listed: Marks::make(heap, codes)?,
        })
    }

    fn check_move(&self, u: u16) -> Result<(), Refusal> {
        if shuttle_of(u) >= self.limits.shuttles {
            Err(Refusal::NoSuchShuttle)
        } else if place_of(u) >= self.limits.moves {
            Err(Refusal::NoSuchPlace)
        } else {
            Ok(())
        }
    }

    fn check_wait(&self, wait: Wait) -> Result<(), Refusal> {
        self.check_move(wait.first)?;
        self.check_move(wait.second)?;
        if shuttle_of(wait.first) != shuttle_of(wait.second) {
            return Ok(());
        }
        Err(Refusal::SameShuttle)
    }

    // Marks what is reached from the move; the search may stop once it has met the goal.
    fn mark_from(&mut self, way: Way, m: u16, goal: Option<u16>) {
        let moves = self.limits.moves;
        match way {
            Way::Forward => self.search.spread(&self.leaving, way, moves, m, goal),
            Way::Backward => self.search.spread(&self.entering, way, moves, m, goal),
        }
    }

    // Whether u is before v.
    fn leads(&mut self, u: u16, v: u16) -> bool {
        self.mark_from(Way::Forward, u, Some(v));
        self.search.seen.has(v)
    }

    // Hangs the wait into its two lists.
    fn hang(&mut self, link: u16, wait: Wait) {
        self.leaving.unhang(codes_of(self.limits), link);
        self.leaving.hang(wait.first as usize, link, wait.second);
        self.entering.hang(wait.second as usize, link, wait.first);
    }

    // The link of this wait, if it is held.
    fn held(&self, wait: Wait) -> Option<u16> {
        self.leaving.find(wait.first as usize, wait.second)
    }

    // Whether a wait leads from this one's first move to the shuttle of its second.
    fn shares_cell(&self, wait: Wait) -> bool {
        let shuttle = shuttle_of(wait.second);
        self.leaving.leads_to(wait.first as usize, shuttle)
    }

    fn place(&mut self, wait: Wait) -> Outcome {
        self.check_wait(wait)?;
        if self.held(wait).is_some() {
            return Err(Refusal::AlreadyHeld);
        }
        if self.leads(wait.second, wait.first) {
            return Err(Refusal::Circle);
        }
        let Some(link) = self.leaving.first(codes_of(self.limits)) else {
            return Err(Refusal::StoreFull);
        };
        if !self.shares_cell(wait) {
            if self.filled >= self.limits.cells {
                return Err(Refusal::TableFull);
            }
            self.filled += 1;
        }
        self.hang(link, wait);
        Ok(Answer::Done)
    }

    fn remove(&mut self, wait: Wait) -> Outcome {
        self.check_wait(wait)?;
        let Some(link) = self.held(wait) else {
            return Err(Refusal::NotHeld);
        };
        self.leaving.unhang(wait.first as usize, link);
        self.entering.unhang(wait.second as usize, link);
        self.leaving.hang(codes_of(self.limits), link, 0);
        if !self.shares_cell(wait) {
            self.filled = self.filled.saturating_sub(1);
        }
        Ok(Answer::Done)
    }

    fn before(&mut self, u: u16, v: u16) -> Outcome {
        self.check_move(u)?;
        self.check_move(v)?;
        Ok(Answer::Truth(self.leads(u, v), 0))
    }

    // The marked move of the shuttle that the search met first.
    fn nearest_marked(&self, way: Way, t: u16) -> Option<u16> {
        let mut marked = (0..self.limits.moves)
            .map(|place| code(t, place))
            .filter(|m| self.search.seen.has(*m));
        match way {
            Way::Forward => marked.next(),
            Way::Backward => marked.next_back(),
        }
    }

    // The nearest move of t that has to follow u, or that has to come before it.
    fn nearest(&mut self, way: Way, u: u16, t: u16) -> Outcome {
        self.check_move(u)?;
        if t >= self.limits.shuttles {
            return Err(Refusal::NoSuchShuttle);
        }
        if shuttle_of(u) == t {
            return Ok(Answer::Found(Some(u), 0));
        }
        self.mark_from(way, u, None);
        Ok(Answer::Found(self.nearest_marked(way, t), 0))
    }

    // Whether the move before m on its shuttle, and each move that m waits for, is listed.
    fn ready(&self, m: u16) -> bool {
        (place_of(m) == 0 || self.listed.has(m - 1))
            && self
                .entering
                .of(m as usize)
                .all(|(_, link)| self.listed.has(link.end))
    }

    // The move to list next, of those that are seen: that of the lowest shuttle whose next one is ready.
    fn next_listed(&self, places: &[u16; 16]) -> Option<u16> {
        (0..self.limits.shuttles)
            .zip(places.iter())
            .filter(|(_, place)| **place < self.limits.moves)
            .map(|(s, place)| code(s, *place))
            .find(|m| self.search.seen.has(*m) && self.ready(*m))
    }

    // Lists the seen moves that are not listed yet; how many they are.
    fn list_seen(&mut self, places: &mut [u16; 16], slice: &mut [u16]) -> usize
        ensures { result ≤ length slice.old }
    {
        for (at, entry) in slice.iter_mut().enumerate() {
            let Some(m) = self.next_listed(places) else {
                return at;
            };
            let s = shuttle_of(m) as usize;
            places[s] = places[s].saturating_add(1);
            self.listed.add(m);
            *entry = m;
        }
        slice.len()
    }

    // How many moves there are.
    fn total(&self) -> usize {
        self.limits.shuttles as usize * self.limits.moves as usize
    }

    fn check_room(&self, slice: &[u16]) -> Result<(), Refusal> {
        if slice.len() < self.total() {
            return Err(Refusal::TooShort);
        }
        Ok(())
    }

    fn list(&mut self, slice: &mut [u16]) -> Outcome {
        self.check_room(slice)?;
        self.search.seen.fill(true);
        self.listed.fill(false);
        let mut places = [0; 16];
        Ok(Answer::Listed(self.list_seen(&mut places, slice)))
    }

    fn push(&mut self, v: u16, slice: &mut [u16]) -> Outcome {
        self.check_move(v)?;
        self.check_room(slice)?;
        self.mark_from(Way::Backward, v, None);
        self.listed.fill(false);
        let mut places = [0; 16];
        let front = self.list_seen(&mut places, slice);
        self.search.seen.fill(true);
        let rest = self.list_seen(&mut places, &mut slice[front..]);
        Ok(Answer::Listed(front + rest))
    }

    fn test(&mut self, slice: &[u16]) -> bool {
        if slice.len() != self.total() {
            return false;
        }
        self.listed.fill(false);
        for m in slice {
            if self.check_move(*m).is_err() || !self.ready(*m) || !self.listed.add(*m) {
                return false;
            }
        }
        true
    }

    // Answers a call of a board. It knows no rounds: its questions have 0.
    pub fn answer(&mut self, ask: Ask, slice: &mut [u16]) -> Outcome {
        match ask {
            Ask::Place(first, second) => self.place(Wait { first, second }),
            Ask::Remove(first, second) => self.remove(Wait { first, second }),
            Ask::Before(u, v) => self.before(u, v),
            Ask::FirstAfter(u, t) => self.nearest(Way::Forward, u, t),
            Ask::LastBefore(u, t) => self.nearest(Way::Backward, u, t),
            Ask::List => self.list(slice),
            Ask::Push(v) => self.push(v, slice),
            Ask::Test => Ok(Answer::Tested(self.test(slice))),
        }
    }
}
