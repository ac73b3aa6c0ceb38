// Random calls for a board, and what their slices hold beforehand.
use graph::graph::{Limits, code};
use graph::random::Random;
use runs::calls::Ask;
use stores::wait::Wait;

// How many waits are remembered, to be removed.
const MEMORY: usize = 64;

// Most of its calls have right numbers, some have wrong ones.
#[derive(Drop)]
pub struct Plan {
    random: Random,
    limits: Limits,
    placed: [Wait; MEMORY],
}

impl Plan {
    pub fn make(limits: Limits, seed: u64) -> Plan {
        let first = Wait {
            first: code(0, 0),
            second: code(1, 0),
        };
        Plan {
            random: Random::from(seed),
            limits,
            placed: [first; MEMORY],
        }
    }

    // A move of the board.
    fn right_move(&mut self) -> u16 {
        let shuttle = self.random.below(self.limits.shuttles);
        code(shuttle, self.random.below(self.limits.moves))
    }

    // A move of the board, or now and then a code just off it, or any code.
    fn any_move(&mut self) -> u16 {
        match self.random.below(32) {
            0 => self.random.below(65535),
            1 => code(self.limits.shuttles, 0),
            2 => code(0, self.limits.moves),
            _ => self.right_move(),
        }
    }

    // A shuttle of the board, or now and then a number that is none.
    fn any_shuttle(&mut self) -> u16 {
        match self.random.below(24) {
            0 => self.random.below(65535),
            1 => self.limits.shuttles,
            _ => self.random.below(self.limits.shuttles),
        }
    }

    // A move not far behind u, on another shuttle, if there is one.
    fn near(&mut self, u: u16) -> u16 {
        let others = self.limits.shuttles.saturating_sub(1);
        let shuttle = (u / 4096 + self.random.below(others) % 16 + 1) % self.limits.shuttles.max(1);
        let place = (u % 4096 + self.random.below(4)) % self.limits.moves.max(1);
        code(shuttle, place)
    }

    // A placement, mostly of a wait that leads forward.
    fn place(&mut self) -> Ask {
        let u = self.any_move();
        let v = if self.random.below(3) == 0 {
            self.any_move()
        } else {
            self.near(u)
        };
        Ask::Place(u, v)
    }

    // Remembers a wait that was placed, in place of another.
    pub fn remember(&mut self, wait: Wait) {
        let at = self.random.below(64) as usize % MEMORY;
        self.placed[at] = wait;
    }

    // A removal, mostly of a wait that is remembered.
    fn remove(&mut self) -> Ask {
        if self.random.below(6) == 0 {
            return Ask::Remove(self.any_move(), self.any_move());
        }
        let wait = self.placed[self.random.below(64) as usize % MEMORY];
        Ask::Remove(wait.first, wait.second)
    }

    // The next call.
    pub fn next(&mut self) -> Ask {
        match self.random.below(100) {
            0..=34 => self.place(),
            35..=57 => self.remove(),
            58..=65 => Ask::Before(self.any_move(), self.any_move()),
            66..=74 => Ask::FirstAfter(self.any_move(), self.any_shuttle()),
            75..=83 => Ask::LastBefore(self.any_move(), self.any_shuttle()),
            84..=87 => Ask::List,
            88..=92 => Ask::Push(self.any_move()),
            _ => Ask::Test,
        }
    }

    // How much of a slice is lent: too little, just enough for all moves, or more.
    pub fn length(&mut self, moves: usize, room: usize) -> usize {
        match self.random.below(8) {
            0 => self.random.draw(room as u64) as usize,
            1 => moves.saturating_sub(1),
            2 | 3 => room,
            _ => moves,
        }
    }

    // Fills the slice with any codes.
    pub fn scribble(&mut self, slice: &mut [u16]) {
        for x in slice.iter_mut() {
            *x = self.random.below(65535);
        }
    }

    // A call that fills a slice with a running order, to be tested.
    pub fn some_order(&mut self) -> Option<Ask> {
        match self.random.below(8) {
            0 => None,
            1..=4 => Some(Ask::List),
            _ => Some(Ask::Push(self.right_move())),
        }
    }

    // A place of the slice.
    fn some_place(&mut self, slice: &[u16]) -> usize {
        self.random.draw(slice.len() as u64) as usize
    }

    // Leaves the slice as it is, swaps two codes of it, or doubles one.
    pub fn damage(&mut self, slice: &mut [u16]) {
        let p = self.some_place(slice);
        let q = match self.random.below(3) {
            0 => p.saturating_add(1),
            _ => self.some_place(slice),
        };
        if p >= slice.len() || q >= slice.len() {
            return;
        }
        match self.random.below(4) {
            0 | 1 => slice.swap(p, q),
            2 => slice[q] = slice[p],
            _ => {}
        }
    }
}
