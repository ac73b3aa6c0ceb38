// The loose list: a store that keeps its waits in the first records of a lent slice, in any order.
ghost use Rattle.std.specs.Prelude.{◌≡◌, true, min, length, take, slice_set};
ghost use Rattle.std.specs.List.{filter_map, position, reduce};
ghost use Rattle.words.specs.Refusals.{LeftAlone, if_done};
ghost use Rattle.stores.specs.Holding.{emptied, add_answer, add_after, remove_answer, remove_after};
ghost use Rattle.stores.specs.Waits.{is_wait, led_to, single, Found};
ghost use Rattle.stores.specs.Loose.{loose_holding, empty_holding, ClosedUp};
ghost use Rattle.stores.specs.LooseLaws.{loose_lawful};

use crate::row::Row;
use crate::store::Store;
use crate::wait::Wait;
use words::Refusal;

// No wait stands in the row twice.
#[derive(Drop)]
pub struct Loose<'a> {
    row: Row<'a>,
    ghost once: { single (take row.count row.records.now) ≡ true },
}

// The smallest place on the shuttle t that one of the waits leads to from `first`.
fn least_place(waits: &[Wait], first: u16, t: u16) -> Option<u16>
    ensures { result ≡ reduce min (filter_map (λ w. led_to w first t) waits.now) }
{
    waits.iter().filter_map(|w| w.place_on(first, t)).min()
}

// Where the wait stands among the waits.
fn position_of(waits: &[Wait], wait: Wait) -> Option<usize>
    ensures { result ≡ position (λ w. is_wait w wait.first wait.second) waits.now }
{
    waits.iter().position(|w| *w == wait)
}

impl<'a> Loose<'a> {
    // An empty list over the records.
    pub fn make(records: &'a mut [Wait]) -> Loose<'a>
        ensures holding { loose_holding result.row.records.now result.row.count ≡ empty_holding (length records.old) }
        ensures records { result.row.records.now ≡ records.old }
    {
        Loose {
            row: Row::new(records),
        }
    }

    // Where the wait stands.
    fn find(&self, wait: Wait) -> Option<usize>
        ensures { Found self.now.row.records.now self.now.row.count wait.first wait.second result }
    {
        position_of(self.row.used(), wait)
    }

    // The refusals of `add`, in their order.
    fn check_add(&self, wait: Wait) -> Result<(), Refusal>
        ensures { result ≡ add_answer (loose_holding self.now.row.records.now self.now.row.count) wait.first wait.second }
    {
        if self.has(wait) {
            return Err(Refusal::AlreadyHeld);
        }
        self.row.check_room()
    }
}

impl<'a> Store for Loose<'a> {
    ghost holding = { λ s. loose_holding s.row.records.now s.row.count };

    ghost lawful = { λ s. loose_lawful s.row.records.now s.row.count s.row.few s.once };

    fn capacity(&self) -> u16 {
        self.row.capacity()
    }

    fn count(&self) -> u16 {
        self.row.count
    }

    fn wipe(&mut self)
        ensures emptied { loose_holding self.new.row.records.now self.new.row.count ≡ emptied (loose_holding self.old.row.records.now self.old.row.count) }
        ensures records { self.new.row.records.now ≡ self.old.row.records.now }
    {
        self.row.clear();
    }

    fn has(&self, wait: Wait) -> bool {
        self.find(wait).is_some()
    }

    fn earliest(&self, first: u16, t: u16) -> Option<u16> {
        // no move has such a shuttle: said here, the search needs no word on how high codes are
        if t > 15 {
            return None;
        }
        least_place(self.row.used(), first, t)
    }

    fn add(&mut self, wait: Wait) -> Result<(), Refusal>
        ensures answer { result ≡ add_answer (loose_holding self.old.row.records.now self.old.row.count) wait.first wait.second }
        ensures after { loose_holding self.new.row.records.now self.new.row.count ≡ add_after (loose_holding self.old.row.records.now self.old.row.count) wait.first wait.second }
        ensures refused { LeftAlone result self.old self.new }
        ensures records { self.new.row.records.now ≡ if_done result self.old.row.records.now (slice_set self.old.row.records.now self.old.row.count wait) }
    {
        self.check_add(wait)?;
        self.row.push(wait)?;
        Ok(())
    }

    fn remove(&mut self, wait: Wait) -> Result<(), Refusal>
        ensures answer { result ≡ remove_answer (loose_holding self.old.row.records.now self.old.row.count) wait.first wait.second }
        ensures after { loose_holding self.new.row.records.now self.new.row.count ≡ remove_after (loose_holding self.old.row.records.now self.old.row.count) wait.first wait.second }
        ensures refused { LeftAlone result self.old self.new }
        ensures records { ClosedUp result self.old.row.records.now self.old.row.count wait.first wait.second self.new.row.records.now }
    {
        let place = self.find(wait).ok_or(Refusal::NotHeld)?;
        self.row.swap_remove(place)?;
        Ok(())
    }
}
