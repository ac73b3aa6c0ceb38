// The same history on boards of every kind.
use crate::side::{Difference, Side, Turn, What};
use crate::told::rounds_of;
use board::board::Board;
use boards::{Design, Use, with_board};
use graph::graph::Limits;
use graph::player::Player;
use graph::tally::Tally;
use std::alloc::{AllocError, Global};
use stores::store::Store;
use tables::table::Table;
use words::aisles::Aisle;
use words::kinds::{StoreKind, TableKind};

// Which history is played: as many calls as there are steps, for a board of these limits.
#[derive(Clone, Copy)]
pub struct History {
    pub limits: Limits,
    pub seed: u64,
    pub steps: usize,
}

impl History {
    // A board of these kinds for it.
    pub fn design(self, table: TableKind, store: StoreKind) -> Design {
        Design {
            aisle: Aisle::new(self.limits.shuttles, self.limits.moves),
            table,
            store,
            cells: self.limits.cells as usize,
            waits: self.limits.waits as usize,
        }
    }
}

// What came of the histories so far: the counts, the boards that were played on, and the rounds of the last history, call by call.
#[derive(Drop)]
pub struct Record {
    pub tally: Tally,
    pub boards: u64,
    limits: Limits,
    rounds: Vec<Option<u32>>,
}

// The first difference, and the call at which it was.
#[derive(Clone, Copy)]
pub struct Fault {
    pub step: usize,
    pub difference: Difference,
}

impl Record {
    pub fn new(heap: Global) -> Record {
        Record {
            tally: Tally::new(),
            boards: 0,
            limits: Limits::whole(0, 0, 0),
            rounds: Vec::new(heap),
        }
    }

    // Begins with another board. Boards with the same limits take the same rounds.
    fn begin(&mut self, limits: Limits) {
        if limits != self.limits {
            self.limits = limits;
            self.rounds.clear();
        }
        self.boards = self.boards.saturating_add(1);
    }

    // Counts a call. Its rounds have to be those of the boards before; those of the first board are kept.
    fn note(&mut self, at: usize, turn: Turn) -> Result<Option<What>, AllocError> {
        self.tally.note(turn.ask, turn.outcome);
        let rounds = rounds_of(turn.outcome);
        match self.rounds.get(at).copied() {
            None => {
                self.rounds.push(rounds)?;
                Ok(None)
            }
            Some(others) => Ok((others != rounds).then_some(What::Rounds(others))),
        }
    }
}

// A history as it is played.
#[derive(Drop)]
struct Playing<'a> {
    side: Side,
    record: &'a mut Record,
    steps: usize,
}

impl<'a> Playing<'a> {
    // Makes the next call, the one at this step; what differed.
    fn take_step<P: Player>(
        &mut self,
        player: &mut P,
        step: usize,
    ) -> Result<Option<Difference>, AllocError> {
        let turn = match self.side.step(player) {
            Ok(turn) => turn,
            Err(difference) => return Ok(Some(difference)),
        };
        let what = self.record.note(step, turn)?;
        Ok(what.map(|what| Difference {
            ask: turn.ask,
            board: turn.outcome,
            graph: turn.outcome,
            what,
        }))
    }
}

// The history is played up to the first difference.
impl<'a> Use for Playing<'a> {
    type Outcome = Result<Option<Fault>, AllocError>;

    // what differs is no promise of the board's: it is what the histories look for
    ghost gives = { λ playing limits fault. Unit {0} };

    fn on<T: Table + Drop, S: Store + Drop>(
        self,
        board: Board<T, S>,
    ) -> Result<Option<Fault>, AllocError> {
        let mut playing = self;
        let mut board = board;
        for step in 0..playing.steps {
            if let Some(difference) = playing.take_step(&mut board, step)? {
                return Ok(Some(Fault { step, difference }));
            }
        }
        Ok(None)
    }
}

// Plays the history on a board of this design.
pub fn on_board(
    heap: Global,
    design: Design,
    history: History,
    record: &mut Record,
) -> Result<Option<Fault>, AllocError> {
    let side = Side::make(heap, history.limits, history.seed)?;
    record.begin(history.limits);
    let playing = Playing {
        side,
        record,
        steps: history.steps,
    };
    with_board(heap, design, playing)?
}
