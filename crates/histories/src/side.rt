// A board beside the graph search: the same calls for both, and their outcomes compared.
use crate::plan::Plan;
use crate::told::{rounds_of, without_rounds};
use graph::graph::{Graph, Limits};
use graph::player::Player;
use runs::calls::{Answer, Ask, Outcome};
use std::alloc::{AllocError, Global};
use std::fmt;
use stores::wait::Wait;

// What differed: the outcomes, a place of the slices and the codes there, or the rounds, which should have been these or, without a number, fewer than the shuttles.
#[derive(Clone, Copy)]
pub enum What {
    Outcomes,
    Slices { at: usize, board: u16, graph: u16 },
    Rounds(Option<u32>),
}

// Each is shown with three numbers, 0 where it has none.
impl fmt::Display for What {
    fn fmt<W: fmt::Write>(&self, f: &mut fmt::Formatter<W>) -> fmt::Result {
        match *self {
            What::Outcomes => f.write_str("answers 0 0 0"),
            What::Slices { at, board, graph } => write!(f, "slices at {at} {board} {graph}"),
            What::Rounds(Some(others)) => write!(f, "rounds, others had {others} 0 0"),
            What::Rounds(None) => f.write_str("rounds 0 0 0"),
        }
    }
}

// A call, and what came of it on the board.
#[derive(Clone, Copy)]
pub struct Turn {
    pub ask: Ask,
    pub outcome: Outcome,
}

// A call that was answered in two ways.
#[derive(Clone, Copy)]
pub struct Difference {
    pub ask: Ask,
    pub board: Outcome,
    pub graph: Outcome,
    pub what: What,
}

// The calls of one history, the graph search that answers them, and the slices of both.
#[derive(Drop)]
pub struct Side {
    limits: Limits,
    plan: Plan,
    graph: Graph,
    boards: Vec<u16>,
    graphs: Vec<u16>,
}

// How many codes the slices have behind those of all moves.
const BEHIND: usize = 5;

// The first place at which the slices differ, and what they hold there.
fn differing(boards: &[u16], graphs: &[u16]) -> Option<What> {
    let (at, (board, graph)) = boards
        .iter()
        .zip(graphs)
        .enumerate()
        .find(|(_, (board, graph))| board != graph)?;
    Some(What::Slices {
        at,
        board: *board,
        graph: *graph,
    })
}

// The slice's first codes.
fn front(slice: &mut [u16], length: usize) -> &mut [u16] {
    let length = length.min(slice.len());
    &mut slice[..length]
}

// How many moves there are.
fn moves_of(limits: Limits) -> usize {
    limits.shuttles as usize * limits.moves as usize
}

impl Side {
    pub fn make(heap: Global, limits: Limits, seed: u64) -> Result<Side, AllocError> {
        let room = moves_of(limits).saturating_add(BEHIND);
        Ok(Side {
            limits,
            plan: Plan::make(limits, seed),
            graph: Graph::make(heap, limits)?,
            boards: Vec::from_elem(heap, 0, room)?,
            graphs: Vec::from_elem(heap, 0, room)?,
        })
    }

    // Fills both slices for the call; those of a test mostly with a running order, which may then be damaged.
    fn fill(&mut self, ask: Ask) {
        let slice = self.graphs.as_mut_slice();
        match ask {
            Ask::List | Ask::Push(_) => self.plan.scribble(slice),
            Ask::Test => {
                self.plan.scribble(slice);
                if let Some(order) = self.plan.some_order() {
                    let _ = self.graph.answer(order, slice);
                }
                self.plan.damage(front(slice, moves_of(self.limits)));
            }
            _ => return,
        }
        let length = self.boards.len().min(self.graphs.len());
        self.boards.as_mut_slice()[..length].copy_from_slice(&self.graphs.as_slice()[..length]);
    }

    // What is wrong with the outcomes of a call, or with the slices then.
    fn compare(&self, board: Outcome, graph: Outcome) -> Option<What> {
        if without_rounds(board) != graph {
            return Some(What::Outcomes);
        }
        if rounds_of(board).is_some_and(|rounds| rounds >= self.limits.shuttles as u32) {
            return Some(What::Rounds(None));
        }
        differing(self.boards.as_slice(), self.graphs.as_slice())
    }

    // Makes the next call on the board and on the graph.
    pub fn step<P: Player>(&mut self, player: &mut P) -> Result<Turn, Difference> {
        let ask = self.plan.next();
        let moves = moves_of(self.limits);
        let length = self.plan.length(moves, self.boards.len());
        self.fill(ask);
        let board = player.play(ask, front(self.boards.as_mut_slice(), length));
        let graph = self
            .graph
            .answer(ask, front(self.graphs.as_mut_slice(), length));
        if let (Ask::Place(first, second), Ok(Answer::Done)) = (ask, graph) {
            self.plan.remember(Wait { first, second });
        }
        match self.compare(board, graph) {
            None => Ok(Turn {
                ask,
                outcome: board,
            }),
            Some(what) => Err(Difference {
                ask,
                board,
                graph,
                what,
            }),
        }
    }
}
