// Plays the history on a board of each kind, and on the graph search.
use crate::history::{History, Size};
use crate::score::Score;
use board::board::Board;
use boards::{Design, Use, with_board};
use graph::graph::{Graph, Limits};
use graph::player::Player;
use runs::calls::{Ask, Outcome};
use std::fmt;
use std::str::FromStr;
use std::time::Instant;
use stores::store::Store;
use tables::table::Table;
use words::Refusal;
use words::aisles::Aisle;
use words::kinds::{StoreKind, TableKind};

// Who plays: a board over one of the tables and an ordered list, or the graph search.
#[derive(Clone, Copy, PartialEq, Eq)]
pub enum Who {
    Board(TableKind),
    Graph,
}

impl fmt::Display for Who {
    fn fmt<W: fmt::Write>(&self, f: &mut fmt::Formatter<W>) -> fmt::Result {
        match self {
            Who::Board(table) => write!(f, "{table}"),
            Who::Graph => f.write_str("graph"),
        }
    }
}

impl FromStr for Who {
    type Err = Refusal;

    fn from_str(word: &str) -> Result<Who, Refusal> {
        match word {
            "graph" => Ok(Who::Graph),
            _ => Ok(Who::Board(word.parse()?)),
        }
    }
}

// The waits that a board holds at most, and the records of a sparse tree: as many as any of them uses.
const WAITS: u16 = 65535;

// A history of this size, to be played.
#[derive(Clone, Copy)]
pub struct Game<'a> {
    pub rt: &'a HostRuntime,
    pub size: Size,
}

impl<'a> Game<'a> {
    // Makes a call and times it.
    fn timed<P: Player>(
        &self,
        player: &mut P,
        ask: Ask,
        slice: &mut [u16],
        score: &mut Score,
    ) -> anyhow::Result<Outcome> {
        let start = Instant::now(self.rt)?;
        let outcome = player.play(ask, slice);
        let spent = start.elapsed(self.rt)?;
        let nanos = u64::try_from(spent.as_nanos()).unwrap_or(u64::MAX);
        score.note(ask, outcome, nanos);
        Ok(outcome)
    }

    // Plays the history, and lists the moves at the end.
    fn play<P: Player>(&self, player: &mut P) -> anyhow::Result<Score> {
        let heap = self.rt.alloc();
        let mut score = Score::new();
        let mut history = History::make(heap, self.size.aisle);
        let mut slice = Vec::from_elem(heap, 0, self.size.all_moves())?;
        let slice = slice.as_mut_slice();
        for _step in 0..self.size.steps {
            if let Some(ask) = history.next()? {
                let outcome = self.timed(player, ask, slice, &mut score)?;
                score.sum(outcome);
            }
        }
        let _ = self.timed(player, Ask::List, slice, &mut score)?;
        Ok(score)
    }

    fn on_graph(&self) -> anyhow::Result<Score> {
        let Aisle { shuttles, moves } = self.size.aisle;
        let limits = Limits::whole(shuttles, moves, WAITS);
        let mut graph = Graph::make(self.rt.alloc(), limits)?;
        self.play(&mut graph)
    }

    // Lets somebody play.
    pub fn played_by(self, who: Who) -> anyhow::Result<Score> {
        match who {
            Who::Graph => self.on_graph(),
            Who::Board(table) => {
                let design = Design {
                    aisle: self.size.aisle,
                    table,
                    store: StoreKind::Ordered,
                    cells: WAITS as usize,
                    waits: WAITS as usize,
                };
                with_board(self.rt.alloc(), design, self)?
            }
        }
    }
}

impl<'a> Use for Game<'a> {
    type Outcome = anyhow::Result<Score>;

    // the score says nothing of the board: the histories compare boards with the graph search
    ghost gives = { λ game limits score. Unit {0} };

    fn on<T: Table + Drop, S: Store + Drop>(self, board: Board<T, S>) -> anyhow::Result<Score> {
        let mut board = board;
        self.play(&mut board)
    }
}
