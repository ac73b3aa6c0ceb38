// The history of a benchmark: the same random calls for whoever plays it.
use graph::graph::code;
use graph::random::Random;
use runs::calls::Ask;
use std::alloc::{AllocError, Global};
use stores::wait::Wait;
use words::aisles::Aisle;

// Where the random numbers begin.
const SEED: u64 = 88172645463325252;

// How large the aisle is, and how many steps are made on it.
#[derive(Clone, Copy)]
pub struct Size {
    pub aisle: Aisle,
    pub steps: u32,
}

impl Size {
    pub fn new(shuttles: u16, moves: u16, steps: u32) -> Size {
        Size {
            aisle: Aisle::new(shuttles, moves),
            steps,
        }
    }

    // How many moves there are.
    pub fn all_moves(&self) -> usize {
        self.aisle.shuttles as usize * self.aisle.moves as usize
    }
}

#[derive(Drop)]
pub struct History {
    random: Random,
    aisle: Aisle,
    // every wait whose placement was tried, in order
    tried: Vec<Wait>,
}

impl History {
    pub fn make(heap: Global, aisle: Aisle) -> History {
        History {
            random: Random::from(SEED),
            aisle,
            tried: Vec::new(heap),
        }
    }

    // Any move.
    fn draw_move(&mut self) -> u16 {
        let shuttle = self.draw_shuttle();
        code(shuttle, self.random.below(self.aisle.moves))
    }

    fn draw_shuttle(&mut self) -> u16 {
        self.random.below(self.aisle.shuttles)
    }

    // The wait to place: from any move to one of another shuttle, which is mostly not far behind.
    fn draw_wait(&mut self) -> Wait {
        let Aisle { shuttles, moves } = self.aisle;
        let s = self.random.below(shuttles);
        let t = s
            .wrapping_add(1)
            .wrapping_add(self.random.below(shuttles.saturating_sub(1)))
            % shuttles.max(1);
        let i = self.random.below(moves);
        let j = if self.random.below(10) == 0 {
            self.random.below(moves)
        } else {
            i.saturating_add(self.random.below(16))
                .min(moves.saturating_sub(1))
        };
        Wait {
            first: code(s, i),
            second: code(t, j),
        }
    }

    fn place(&mut self) -> Result<Ask, AllocError> {
        let wait = self.draw_wait();
        self.tried.push(wait)?;
        Ok(Ask::Place(wait.first, wait.second))
    }

    // The removal of a wait that was tried, unless none was.
    fn remove(&mut self) -> Option<Ask> {
        if self.tried.is_empty() {
            return None;
        }
        let at = self.random.draw(self.tried.len() as u64) as usize;
        let wait = self.tried.get(at)?;
        Some(Ask::Remove(wait.first, wait.second))
    }

    // The call of the next step; none where it is skipped.
    pub fn next(&mut self) -> Result<Option<Ask>, AllocError> {
        Ok(match self.random.below(100) {
            0..=49 => Some(self.place()?),
            50..=69 => self.remove(),
            70..=79 => Some(Ask::Before(self.draw_move(), self.draw_move())),
            80..=89 => Some(Ask::FirstAfter(self.draw_move(), self.draw_shuttle())),
            _ => Some(Ask::LastBefore(self.draw_move(), self.draw_shuttle())),
        })
    }
}
