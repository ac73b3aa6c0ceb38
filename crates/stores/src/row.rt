// The row that a list of waits keeps: the first records of a lent slice, as many as are in use.
ghost use Rattle.std.specs.Prelude.{◌≡◌, ◌+◌, ◌-◌, ◌≤◌, min, length, take, nat_lt, slice_index_or, slice_set};
ghost use Rattle.words.specs.Refusals.{unless, if_done, LeftAlone};
ghost use Rattle.stores.specs.Waits.{wait_of};
ghost use Rattle.stores.specs.Rows.{room, put_in, taken_out};

use crate::wait::Wait;
use words::Refusal;

#[derive(Drop)]
pub struct Row<'a> {
    pub count: u16,
    pub records: &'a mut [Wait],
    ghost few: { count ≤ room (length records.now) },
}

impl<'a> Row<'a> {
    // A row with no record in use.
    pub fn new(records: &'a mut [Wait]) -> Row<'a>
        ensures count { result.count ≡ 0 }
        ensures records { result.records.now ≡ records.old }
    {
        Row { count: 0, records }
    }

    // How many records it can use.
    pub fn capacity(&self) -> u16
        ensures { result ≡ room (length self.now.records.now) }
    {
        u16::try_from(self.records.len()).unwrap_or(u16::MAX)
    }

    // The records in use.
    pub fn used(&self) -> &[Wait]
        ensures { result.now ≡ take self.now.count self.now.records.now }
    {
        &self.records[..self.count as usize]
    }

    // Frees every record.
    pub fn clear(&mut self)
        ensures count { self.new.count ≡ 0 }
        ensures records { self.new.records.now ≡ self.old.records.now }
    {
        self.count = 0;
    }

    // Refuses where every record is in use.
    pub fn check_room(&self) -> Result<(), Refusal>
        ensures { result ≡ unless (nat_lt self.now.count (room (length self.now.records.now))) 7 }
    {
        if self.count < self.capacity() {
            Ok(())
        } else {
            Err(Refusal::StoreFull)
        }
    }

    // Refuses a place whose record is not in use.
    fn check_used(&self, place: usize) -> Result<(), Refusal>
        ensures { result ≡ unless (nat_lt place self.now.count) 5 }
    {
        if place < self.count as usize {
            Ok(())
        } else {
            Err(Refusal::NotHeld)
        }
    }

    // Takes the next record into use.
    pub fn push(&mut self, wait: Wait) -> Result<(), Refusal>
        ensures answer { result ≡ unless (nat_lt self.old.count (room (length self.old.records.now))) 7 }
        ensures count { self.new.count ≡ if_done result self.old.count (self.old.count + 1) }
        ensures records { self.new.records.now ≡ if_done result self.old.records.now (slice_set self.old.records.now self.old.count wait) }
        ensures refused { LeftAlone result self.old self.new }
    {
        self.check_room()?;
        self.records[self.count as usize] = wait;
        self.count += 1;
        Ok(())
    }

    // Puts the last record in use into the place, and frees it.
    pub fn swap_remove(&mut self, place: usize) -> Result<(), Refusal>
        ensures answer { result ≡ unless (nat_lt place self.old.count) 5 }
        ensures count { self.new.count ≡ if_done result self.old.count (self.old.count - 1) }
        ensures records { self.new.records.now ≡ if_done result self.old.records.now (slice_set self.old.records.now place (slice_index_or self.old.records.now (self.old.count - 1) (wait_of 0 0))) }
        ensures refused { LeftAlone result self.old self.new }
    {
        self.check_used(place)?;
        self.count -= 1;
        self.records[place] = self.records[self.count as usize];
        Ok(())
    }

    // Puts the wait in at the place, and moves the records in use from there on one place up. A place behind them counts as their end.
    pub fn insert(&mut self, place: usize, wait: Wait) -> Result<(), Refusal>
        ensures answer { result ≡ unless (nat_lt self.old.count (room (length self.old.records.now))) 7 }
        ensures count { self.new.count ≡ if_done result self.old.count (self.old.count + 1) }
        ensures records { self.new.records.now ≡ if_done result self.old.records.now (put_in self.old.records.now self.old.count (min place self.old.count) wait) }
        ensures refused { LeftAlone result self.old self.new }
    {
        self.check_room()?;
        let count = self.count as usize;
        let place = place.min(count);
        self.records.copy_within(place..count, place + 1);
        self.records[place] = wait;
        self.count += 1;
        Ok(())
    }

    // Takes the wait at the place out, and moves the records in use behind it one place down.
    pub fn remove(&mut self, place: usize) -> Result<(), Refusal>
        ensures answer { result ≡ unless (nat_lt place self.old.count) 5 }
        ensures count { self.new.count ≡ if_done result self.old.count (self.old.count - 1) }
        ensures records { self.new.records.now ≡ if_done result self.old.records.now (taken_out self.old.records.now self.old.count place) }
        ensures refused { LeftAlone result self.old self.new }
    {
        self.check_used(place)?;
        let count = self.count as usize;
        self.records.copy_within(place + 1..count, place);
        self.count -= 1;
        Ok(())
    }
}
