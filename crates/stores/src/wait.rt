// One record of a store: a wait, by the codes of its two moves.
ghost use Rattle.std.specs.Prelude.{◌≡◌};
ghost use Rattle.stores.specs.Waits.{led_to};

use words::moves::Code;

// Waits are ordered by their first codes, and then by their second codes.
#[derive(Clone, Copy, PartialEq, Eq, PartialOrd, Ord, Debug)]
pub struct Wait {
    pub first: u16,
    pub second: u16,
}

impl Wait {
    // The place on the shuttle t that the wait leads to from `first`, if it does.
    pub fn place_on(self, first: u16, t: u16) -> Option<u16>
        ensures { result ≡ led_to self first t }
    {
        let second = Code(self.second);
        (self.first == first && second.shuttle() == t).then_some(second.place())
    }
}
