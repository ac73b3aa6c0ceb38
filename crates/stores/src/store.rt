// What a store is, by its meaning.
ghost use Rattle.std.specs.Prelude.{◌≡◌};
ghost use Rattle.words.specs.Refusals.{LeftAlone};
ghost use Rattle.stores.specs.Holding.{Holding, Lawful, Earliest, emptied, add_answer, add_after, remove_answer, remove_after};

use crate::wait::Wait;
use words::Refusal;

pub trait Store {
    ghost holding: { Self → Holding };

    ghost lawful: { (x : Self) → Lawful (holding x) };

    // How many waits it can hold.
    fn capacity(&self) -> u16
        ensures { result ≡ (holding self.now).capacity };

    // How many waits it holds.
    fn count(&self) -> u16
        ensures { result ≡ (holding self.now).count };

    // Lets every wait go.
    fn wipe(&mut self)
        ensures { holding self.new ≡ emptied (holding self.old) };

    // Whether it holds the wait.
    fn has(&self, wait: Wait) -> bool
        ensures { result ≡ (holding self.now).held wait.first wait.second };

    // The smallest place j of the shuttle t such that the wait from `first` to t.j is held.
    fn earliest(&self, first: u16, t: u16) -> Option<u16>
        ensures { Earliest (holding self.now) first t result };

    // Holds one wait more.
    fn add(&mut self, wait: Wait) -> Result<(), Refusal>
        ensures answer { result ≡ add_answer (holding self.old) wait.first wait.second }
        ensures after { holding self.new ≡ add_after (holding self.old) wait.first wait.second }
        ensures refused { LeftAlone result self.old self.new };

    // Lets one wait go.
    fn remove(&mut self, wait: Wait) -> Result<(), Refusal>
        ensures answer { result ≡ remove_answer (holding self.old) wait.first wait.second }
        ensures after { holding self.new ≡ remove_after (holding self.old) wait.first wait.second }
        ensures refused { LeftAlone result self.old self.new };
}
