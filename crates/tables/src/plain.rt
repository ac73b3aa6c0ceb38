// The plain table, over a lent buffer: the cell (s, t, i) of k shuttles with n moves is the number at (s * k + t) * n + i.
ghost use Rattle.std.specs.Prelude.{◌≡◌, ℕ, ◌+◌, ◌*◌, ◌^◌, ◌<◌, ◌≤◌, true, length, slice_index, slice_set};
ghost use Rattle.words.specs.Refusals.{passed, if_done, LeftAlone};
ghost use Rattle.tables.specs.Meaning.{one, filled_of, wiped};
ghost use Rattle.tables.specs.Answers.{allowed, put_answer, put_after, clear_answer, clear_after};
ghost use Rattle.tables.specs.Plain.{place, decoded, encoded, plain_cell, plain_meaning, tidy_at, plain_check, plain_made, plain_used, wiped_front};
ghost use Rattle.tables.specs.PlainLaws.{plain_lawful};

use crate::checks::{check_cell, check_value, count_of};
use crate::lent::{Lent, check_buffer};
use crate::numbers::{decode, encode, last_of, least_of};
use crate::table::{Sizes, Table};
use words::Refusal;
use words::aisles::Aisle;

// How many numbers a table takes.
pub fn numbers_of(aisle: Aisle) -> usize
    ensures { result ≡ aisle.shuttles * aisle.shuttles * aisle.moves }
{
    aisle.shuttles as usize * aisle.shuttles as usize * aisle.moves as usize
}

// Whether a buffer of so many numbers serves a plain table of these sizes.
#[tactic(auto, unfolding(crate::specs::Plain::plain_check))]
pub fn check_plain(aisle: Aisle, given: usize) -> Result<(), Refusal>
    ensures { result ≡ plain_check aisle.shuttles aisle.moves given }
{
    check_buffer(aisle, numbers_of(aisle), given)
}

// Makes the number at p stand for the value, and keeps count of the filled cells.
fn write(lent: &mut Lent<'_>, p: usize, value: Option<u16>)
    requires inside { p < length lent.old.cells.now }
    requires counted { one (decoded (slice_index lent.old.cells.now p)) ≤ lent.old.filled }
    requires few { lent.old.filled < 2 ^ 31 }
    ensures same { (lent.new.aisle ≡ lent.old.aisle) × (lent.new.used ≡ lent.old.used) }
    ensures filled { lent.new.filled + one (decoded (slice_index lent.old.cells.now p)) ≡ lent.old.filled + one value }
    ensures numbers { lent.new.cells.now ≡ slice_set lent.old.cells.now p (encoded value) }
{
    let was = decode(lent.cells[p]);
    lent.filled = lent.filled + count_of(value) - count_of(was);
    lent.cells[p] = encode(value);
}

// The table. What holds of its numbers stands here and not in `Lent`, whose calls may break it on their way.
#[derive(Drop)]
pub struct Plain<'a> {
    lent: Lent<'a>,
    // a table with one shuttle has no cells, and may use nothing
    ghost whole: { 1 < lent.aisle.shuttles → lent.used ≡ lent.aisle.shuttles * lent.aisle.shuttles * lent.aisle.moves },
    ghost tidy: { (p : ℕ) → p < lent.used → tidy_at lent.aisle.shuttles lent.aisle.moves p (slice_index lent.cells.now p) ≡ true },
    ghost counted: { lent.filled ≡ filled_of lent.aisle.shuttles lent.aisle.moves (plain_cell lent.aisle.shuttles lent.aisle.moves lent.cells.now) },
}

impl<'a> Plain<'a> {
    // An empty table over the buffer. Where the check refuses, the table has no cell, and the buffer stays as it was.
    pub fn make(aisle: Aisle, cells: &'a mut [u16]) -> Plain<'a>
        ensures means { plain_meaning result.lent.aisle.shuttles result.lent.aisle.moves result.lent.cells.now ≡ plain_made aisle.shuttles aisle.moves (length cells.old) }
        ensures used { result.lent.used ≡ plain_used aisle.shuttles aisle.moves (length cells.old) }
        ensures numbers { result.lent.cells.now ≡ wiped_front (plain_used aisle.shuttles aisle.moves (length cells.old)) cells.old }
    {
        Plain {
            lent: Lent::over(aisle, numbers_of(aisle), cells),
        }
    }

    // Where the cell (s, t, i) lies.
    fn place(&self, s: u16, t: u16, i: u16) -> usize
        requires { passed ≡ allowed self.now.lent.aisle.shuttles self.now.lent.aisle.moves s t i }
        ensures at { result ≡ place self.now.lent.aisle.shuttles self.now.lent.aisle.moves s t i }
        ensures inside { result < length self.now.lent.cells.now }
    {
        let aisle = self.lent.aisle;
        (s as usize * aisle.shuttles as usize + t as usize) * aisle.moves as usize + i as usize
    }

    // The numbers of the pair (s, t), place by place.
    fn row(&self, s: u16, t: u16) -> &[u16]
        requires { passed ≡ allowed self.now.lent.aisle.shuttles self.now.lent.aisle.moves s t 0 }
        ensures size { length result.now ≡ self.now.lent.aisle.moves }
        ensures cells { (i : ℕ) → i < self.now.lent.aisle.moves → decoded (slice_index result.now i) ≡ plain_cell self.now.lent.aisle.shuttles self.now.lent.aisle.moves self.now.lent.cells.now s t i }
    {
        let start = self.place(s, t, 0);
        &self.lent.cells[start..start + self.lent.aisle.moves as usize]
    }
}

impl<'a> Table for Plain<'a> {
    ghost meaning = { λ t. plain_meaning t.lent.aisle.shuttles t.lent.aisle.moves t.lent.cells.now };

    ghost lawful = { λ t. plain_lawful t.lent.aisle.shuttles t.lent.aisle.moves t.lent.used t.lent.cells.now t.lent.small t.whole t.tidy };

    fn sizes(&self) -> Sizes {
        self.lent.sizes()
    }

    fn cell(&self, s: u16, t: u16, i: u16) -> Result<Option<u16>, Refusal> {
        check_cell(self.lent.aisle, s, t, i)?;
        Ok(decode(self.lent.cells[self.place(s, t, i)]))
    }

    fn wipe(&mut self)
        ensures after { plain_meaning self.new.lent.aisle.shuttles self.new.lent.aisle.moves self.new.lent.cells.now ≡ wiped (plain_meaning self.old.lent.aisle.shuttles self.old.lent.aisle.moves self.old.lent.cells.now) }
        ensures used { self.new.lent.used ≡ self.old.lent.used }
        ensures numbers { self.new.lent.cells.now ≡ wiped_front self.old.lent.used self.old.lent.cells.now }
    {
        self.lent.blank();
    }

    fn put(&mut self, s: u16, t: u16, i: u16, j: u16) -> Result<(), Refusal>
        ensures answer { result ≡ put_answer (plain_meaning self.old.lent.aisle.shuttles self.old.lent.aisle.moves self.old.lent.cells.now) s t i j }
        ensures after { plain_meaning self.new.lent.aisle.shuttles self.new.lent.aisle.moves self.new.lent.cells.now ≡ put_after (plain_meaning self.old.lent.aisle.shuttles self.old.lent.aisle.moves self.old.lent.cells.now) s t i j }
        ensures refused { LeftAlone result self.old self.new }
        ensures numbers { self.new.lent.cells.now ≡ if_done result self.old.lent.cells.now (slice_set self.old.lent.cells.now (place self.old.lent.aisle.shuttles self.old.lent.aisle.moves s t i) j) }
    {
        check_cell(self.lent.aisle, s, t, i)?;
        check_value(self.lent.aisle, j)?;
        let p = self.place(s, t, i);
        write(&mut self.lent, p, Some(j));
        Ok(())
    }

    fn clear(&mut self, s: u16, t: u16, i: u16) -> Result<(), Refusal>
        ensures answer { result ≡ clear_answer (plain_meaning self.old.lent.aisle.shuttles self.old.lent.aisle.moves self.old.lent.cells.now) s t i }
        ensures after { plain_meaning self.new.lent.aisle.shuttles self.new.lent.aisle.moves self.new.lent.cells.now ≡ clear_after (plain_meaning self.old.lent.aisle.shuttles self.old.lent.aisle.moves self.old.lent.cells.now) s t i }
        ensures refused { LeftAlone result self.old self.new }
        ensures numbers { self.new.lent.cells.now ≡ if_done result self.old.lent.cells.now (slice_set self.old.lent.cells.now (place self.old.lent.aisle.shuttles self.old.lent.aisle.moves s t i) 65535) }
    {
        check_cell(self.lent.aisle, s, t, i)?;
        let p = self.place(s, t, i);
        write(&mut self.lent, p, None);
        Ok(())
    }

    fn least(&self, s: u16, t: u16, i: u16) -> Result<Option<u16>, Refusal> {
        check_cell(self.lent.aisle, s, t, i)?;
        Ok(least_of(&self.row(s, t)[i as usize..]))
    }

    fn last(&self, s: u16, t: u16, j: u16) -> Result<Option<u16>, Refusal> {
        check_cell(self.lent.aisle, s, t, j)?;
        Ok(last_of(self.row(s, t), j).map(|p| p as u16))
    }
}
