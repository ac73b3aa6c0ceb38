// A lent buffer of numbers, as the plain table and the full tree keep their cells in it.
ghost use Rattle.std.specs.Prelude.{◌≡◌, ◌-◌, ◌*◌, ◌≤◌, length};
ghost use Rattle.words.specs.Refusals.{if_done};
ghost use Rattle.tables.specs.Meaning.{Small};
ghost use Rattle.tables.specs.Plain.{buffer_check, wiped_front};

use crate::checks::{check_length, check_sizes};
use crate::numbers::encode;
use crate::table::Sizes;
use words::Refusal;
use words::aisles::Aisle;

// The aisle, how many numbers of the buffer are used, how many cells are filled, and the buffer.
#[derive(Drop)]
pub struct Lent<'a> {
    pub aisle: Aisle,
    pub used: usize,
    pub filled: u32,
    pub cells: &'a mut [u16],
    ghost small: { Small aisle.shuttles aisle.moves },
    ghost within: { used ≤ length cells.now },
}

// Whether a buffer of so many numbers serves a table of these sizes, which needs so many.
pub fn check_buffer(aisle: Aisle, needed: usize, given: usize) -> Result<(), Refusal>
    ensures { result ≡ buffer_check aisle.shuttles aisle.moves needed given }
{
    check_sizes(aisle)?;
    check_length(needed, given)
}

// The aisle of a table over a buffer of so many numbers, and how many of them it uses.
fn taken(aisle: Aisle, needed: usize, given: usize) -> (Aisle, usize)
    ensures shuttles { result.0.shuttles ≡ if_done (buffer_check aisle.shuttles aisle.moves needed given) 1 aisle.shuttles }
    ensures moves { result.0.moves ≡ if_done (buffer_check aisle.shuttles aisle.moves needed given) 1 aisle.moves }
    ensures used { result.1 ≡ if_done (buffer_check aisle.shuttles aisle.moves needed given) 0 needed }
    ensures small { Small result.0.shuttles result.0.moves }
    ensures within { result.1 ≤ given }
{
    match check_buffer(aisle, needed, given) {
        Ok(()) => (aisle, needed),
        Err(_) => (Aisle::new(1, 1), 0),
    }
}

impl<'a> Lent<'a> {
    // An empty table's buffer, of which the first numbers are used. Where the check refuses, the aisle has one shuttle with one move, and none is used.
    pub fn over(aisle: Aisle, needed: usize, cells: &'a mut [u16]) -> Lent<'a>
        ensures shuttles { result.aisle.shuttles ≡ if_done (buffer_check aisle.shuttles aisle.moves needed (length cells.old)) 1 aisle.shuttles }
        ensures moves { result.aisle.moves ≡ if_done (buffer_check aisle.shuttles aisle.moves needed (length cells.old)) 1 aisle.moves }
        ensures used { result.used ≡ if_done (buffer_check aisle.shuttles aisle.moves needed (length cells.old)) 0 needed }
        ensures filled { result.filled ≡ 0 }
        ensures numbers { result.cells.now ≡ wiped_front (if_done (buffer_check aisle.shuttles aisle.moves needed (length cells.old)) 0 needed) cells.old }
    {
        let (aisle, used) = taken(aisle, needed, cells.len());
        cells[..used].fill(encode(None));
        Lent {
            aisle,
            used,
            filled: 0,
            cells,
        }
    }

    // Empties every cell.
    pub fn blank(&mut self)
        ensures same { (self.new.aisle ≡ self.old.aisle) × (self.new.used ≡ self.old.used) }
        ensures filled { self.new.filled ≡ 0 }
        ensures numbers { self.new.cells.now ≡ wiped_front self.old.used self.old.cells.now }
    {
        self.cells[..self.used].fill(encode(None));
        self.filled = 0;
    }

    // The sizes of a table with a cell for each two different shuttles and each place.
    pub fn sizes(&self) -> Sizes
        ensures aisle { result.aisle ≡ self.now.aisle }
        ensures capacity { result.capacity ≡ self.now.aisle.shuttles * (self.now.aisle.shuttles - 1) * self.now.aisle.moves }
        ensures filled { result.filled ≡ self.now.filled }
    {
        let k = self.aisle.shuttles as u32;
        Sizes {
            aisle: self.aisle,
            capacity: k * (k - 1) * self.aisle.moves as u32,
            filled: self.filled,
        }
    }
}
