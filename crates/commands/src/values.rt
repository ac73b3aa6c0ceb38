// What a line of a script says, as a value, and what can be wrong with a line.
ghost use Rattle.std.specs.Prelude.{◌≡◌, Some};
ghost use Rattle.commands.specs.declared.values.Wrong.TheVariants.{Memory};
ghost use Rattle.commands.specs.Texts.{board_text, wrong_text};

use std::alloc::{AllocError, AllocFailed};
use std::error::Error;
use std::fmt;
use words::kinds::{StoreKind, TableKind};

// A number from here on counts as this one: no shuttle, place or size is so high, and no 16-bit number.
pub const BEYOND: u32 = 65536;

// A move as it is written: it may have no code.
#[derive(Clone, Copy, PartialEq, Eq, Debug)]
pub struct Move {
    pub shuttle: u32,
    pub place: u32,
}

// The board that a script asks for. It is shown as the line that asks for it, which answers it too.
#[derive(Clone, Copy, PartialEq, Eq, Debug)]
pub struct Setup {
    pub shuttles: u32,
    pub moves: u32,
    pub table: TableKind,
    pub store: StoreKind,
}

impl fmt::Display for Setup {
    ghost output = { λ s. Some (board_text s) };

    fn fmt<W: fmt::Write>(&self, f: &mut fmt::Formatter<W>) -> fmt::Result {
        let Setup {
            shuttles,
            moves,
            table,
            store,
        } = *self;
        write!(f, "board {shuttles} {moves} {table} {store}")
    }
}

// A call of the board as it is written.
#[derive(Clone, Copy, PartialEq, Eq, Debug)]
pub enum Request {
    Place(Move, Move),
    Remove(Move, Move),
    Before(Move, Move),
    FirstAfter(Move, u32),
    LastBefore(Move, u32),
    List,
    Push(Move),
}

// What is asked of the board that there is.
#[derive(Drop)]
pub enum Task {
    Call(Request),
    Test(Vec<Move>),
    Cell(u32, u32, u32),
}

#[derive(Drop)]
pub enum Command {
    Board(Setup),
    Task(Task),
}

// What is wrong with a line.
#[derive(Clone, Copy, PartialEq, Eq, Debug)]
pub enum Wrong {
    Command,
    Missing,
    Surplus,
    Number,
    Move,
    Table,
    Store,
    NoBoard,
    Unpackable,
    SecondBoard,
    NoCode,
    TooManySteps,
    Memory,
}

impl fmt::Display for Wrong {
    ghost output = { λ wrong. Some (wrong_text wrong) };

    fn fmt<W: fmt::Write>(&self, f: &mut fmt::Formatter<W>) -> fmt::Result {
        f.write_str(match self {
            Wrong::Command => "there is no such command",
            Wrong::Missing => "a word is missing",
            Wrong::Surplus => "there is a word too many",
            Wrong::Number => "a number is written with digits only",
            Wrong::Move => "a move is written as shuttle.place, like 0.1",
            Wrong::Table => "a table is plain, full or sparse",
            Wrong::Store => "a store is loose or ordered",
            Wrong::NoBoard => "there is no board yet",
            Wrong::Unpackable => "an edit file has no step for this command",
            Wrong::SecondBoard => "an edit file has one board",
            Wrong::NoCode => "an edit file has no number for this",
            Wrong::TooManySteps => "an edit file has at most 2729 steps",
            Wrong::Memory => "there is not enough memory",
        })
    }
}

impl Error for Wrong {}

impl From<AllocError> for Wrong {
    ghost from_gives = { λ _ wrong. wrong ≡ Memory };

    fn from(_e: AllocError) -> Wrong {
        Wrong::Memory
    }
}

impl<T: Drop> From<AllocFailed<T>> for Wrong {
    ghost from_gives = { λ _ wrong. wrong ≡ Memory };

    fn from(_e: AllocFailed<T>) -> Wrong {
        Wrong::Memory
    }
}
