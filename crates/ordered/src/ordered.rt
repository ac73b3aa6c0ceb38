// The ordered list: a store that keeps its waits in the first records of a lent slice, by their first codes and then by their second codes.
ghost use Rattle.std.specs.Prelude.{◌≡◌, true, length, take, slice_get};
ghost use Rattle.words.specs.Refusals.{LeftAlone, if_done};
ghost use Rattle.stores.specs.Holding.{emptied, add_answer, add_after, remove_answer, remove_after};
ghost use Rattle.stores.specs.Waits.{held_in};
ghost use Rattle.stores.specs.Rows.{put_in, taken_out};
ghost use Rattle.stores.specs.Loose.{loose_holding, empty_holding};
ghost use Rattle.ordered.specs.Ordered.{ascends, place_in, some_wait, led_by};
ghost use Rattle.ordered.specs.OrderedLaws.{ordered_lawful};

use stores::row::Row;
use stores::store::Store;
use stores::wait::Wait;
use words::Refusal;

// The waits stand in their order.
#[derive(Drop)]
pub struct Ordered<'a> {
    row: Row<'a>,
    ghost rising: { ascends (take row.count row.records.now) ≡ true },
}

// The place of the wait among waits that stand in order: how many stand before it.
fn place_among(waits: &[Wait], wait: Wait) -> usize
    requires { ascends waits.now ≡ true }
    ensures { result ≡ place_in waits.now wait.first wait.second }
{
    waits.partition_point(|w| *w < wait)
}

// Whether there is a record, and it is the wait.
fn is_wait(found: Option<Wait>, wait: Wait) -> bool
    ensures { result ≡ some_wait found wait.first wait.second }
{
    found == Some(wait)
}

// The place on the shuttle t that the record leads to from `first`, if there is one and it does.
fn led_by(found: Option<Wait>, first: u16, t: u16) -> Option<u16>
    ensures { result ≡ led_by found first t }
{
    found.and_then(|w| w.place_on(first, t))
}

impl<'a> Ordered<'a> {
    // An empty list over the records.
    pub fn make(records: &'a mut [Wait]) -> Ordered<'a>
        ensures holding { loose_holding result.row.records.now result.row.count ≡ empty_holding (length records.old) }
        ensures records { result.row.records.now ≡ records.old }
    {
        Ordered {
            row: Row::new(records),
        }
    }

    // The place of the wait, by halving.
    fn seek(&self, wait: Wait) -> usize
        ensures { result ≡ place_in (take self.now.row.count self.now.row.records.now) wait.first wait.second }
    {
        place_among(self.row.used(), wait)
    }

    // The wait at the place, if one stands there.
    fn at(&self, place: usize) -> Option<Wait>
        ensures { result ≡ slice_get (take self.now.row.count self.now.row.records.now) place }
    {
        self.row.used().get(place).copied()
    }

    // Whether the wait is held, where `place` is its place.
    fn holds(&self, place: usize, wait: Wait) -> bool
        requires { place ≡ place_in (take self.now.row.count self.now.row.records.now) wait.first wait.second }
        ensures { result ≡ held_in (take self.now.row.count self.now.row.records.now) wait.first wait.second }
    {
        is_wait(self.at(place), wait)
    }

    // The refusals of `add`, in their order, where `place` is the place of the wait.
    fn check_add(&self, place: usize, wait: Wait) -> Result<(), Refusal>
        requires { place ≡ place_in (take self.now.row.count self.now.row.records.now) wait.first wait.second }
        ensures { result ≡ add_answer (loose_holding self.now.row.records.now self.now.row.count) wait.first wait.second }
    {
        if self.holds(place, wait) {
            return Err(Refusal::AlreadyHeld);
        }
        self.row.check_room()
    }
}

impl<'a> Store for Ordered<'a> {
    ghost holding = { λ s. loose_holding s.row.records.now s.row.count };

    ghost lawful = { λ s. ordered_lawful s.row.records.now s.row.count s.row.few s.rising };

    fn capacity(&self) -> u16 {
        self.row.capacity()
    }

    fn count(&self) -> u16 {
        self.row.count
    }

    fn wipe(&mut self)
        ensures emptied { loose_holding self.new.row.records.now self.new.row.count ≡ emptied (loose_holding self.old.row.records.now self.old.row.count) }
        ensures records { self.new.row.records.now ≡ self.old.row.records.now }
    {
        self.row.clear();
    }

    fn has(&self, wait: Wait) -> bool {
        self.holds(self.seek(wait), wait)
    }

    fn earliest(&self, first: u16, t: u16) -> Option<u16> {
        if t > 15 {
            return None;
        }
        let place = self.seek(Wait {
            first,
            second: t * 4096,
        });
        led_by(self.at(place), first, t)
    }

    fn add(&mut self, wait: Wait) -> Result<(), Refusal>
        ensures answer { result ≡ add_answer (loose_holding self.old.row.records.now self.old.row.count) wait.first wait.second }
        ensures after { loose_holding self.new.row.records.now self.new.row.count ≡ add_after (loose_holding self.old.row.records.now self.old.row.count) wait.first wait.second }
        ensures refused { LeftAlone result self.old self.new }
        ensures records { self.new.row.records.now ≡ if_done result self.old.row.records.now (put_in self.old.row.records.now self.old.row.count (place_in (take self.old.row.count self.old.row.records.now) wait.first wait.second) wait) }
    {
        let place = self.seek(wait);
        self.check_add(place, wait)?;
        self.row.insert(place, wait)?;
        Ok(())
    }

    fn remove(&mut self, wait: Wait) -> Result<(), Refusal>
        ensures answer { result ≡ remove_answer (loose_holding self.old.row.records.now self.old.row.count) wait.first wait.second }
        ensures after { loose_holding self.new.row.records.now self.new.row.count ≡ remove_after (loose_holding self.old.row.records.now self.old.row.count) wait.first wait.second }
        ensures refused { LeftAlone result self.old self.new }
        ensures records { self.new.row.records.now ≡ if_done result self.old.row.records.now (taken_out self.old.row.records.now self.old.row.count (place_in (take self.old.row.count self.old.row.records.now) wait.first wait.second)) }
    {
        let place = self.seek(wait);
        if !self.holds(place, wait) {
            return Err(Refusal::NotHeld);
        }
        self.row.remove(place)
    }
}
