// What a table is, by its meaning.
ghost use Rattle.std.specs.Prelude.{◌≡◌};
ghost use Rattle.words.specs.Refusals.{LeftAlone};
ghost use Rattle.tables.specs.Meaning.{Meaning, Lawful, Sized, wiped};
ghost use Rattle.tables.specs.Answers.{cell_answer, put_answer, put_after, clear_answer, clear_after, least_answer, last_answer};

use words::Refusal;
use words::aisles::Aisle;

// A table's sizes: its aisle, how many cells it can fill, and how many are filled.
#[derive(Clone, Copy, PartialEq, Eq, Debug)]
pub struct Sizes {
    pub aisle: Aisle,
    pub capacity: u32,
    pub filled: u32,
}

pub trait Table {
    ghost meaning: { Self → Meaning };

    ghost lawful: { (x : Self) → Lawful (meaning x) };

    fn sizes(&self) -> Sizes
        ensures { Sized (meaning self.now) result };

    // What one cell holds.
    fn cell(&self, s: u16, t: u16, i: u16) -> Result<Option<u16>, Refusal>
        ensures { result ≡ cell_answer (meaning self.now) s t i };

    // Empties every cell.
    fn wipe(&mut self)
        ensures { meaning self.new ≡ wiped (meaning self.old) };

    // Makes one cell hold j.
    fn put(&mut self, s: u16, t: u16, i: u16, j: u16) -> Result<(), Refusal>
        ensures answer { result ≡ put_answer (meaning self.old) s t i j }
        ensures after { meaning self.new ≡ put_after (meaning self.old) s t i j }
        ensures refused { LeftAlone result self.old self.new };

    // Empties one cell.
    fn clear(&mut self, s: u16, t: u16, i: u16) -> Result<(), Refusal>
        ensures answer { result ≡ clear_answer (meaning self.old) s t i }
        ensures after { meaning self.new ≡ clear_after (meaning self.old) s t i }
        ensures refused { LeftAlone result self.old self.new };

    // The smallest value of the pair's cells from place i on.
    fn least(&self, s: u16, t: u16, i: u16) -> Result<Option<u16>, Refusal>
        ensures { result ≡ least_answer (meaning self.now) s t i };

    // The greatest place of the pair whose cell holds at most j.
    fn last(&self, s: u16, t: u16, j: u16) -> Result<Option<u16>, Refusal>
        ensures { result ≡ last_answer (meaning self.now) s t j };
}
