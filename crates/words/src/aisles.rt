// How large an aisle is.
ghost use Rattle.std.specs.Prelude.{◌≡◌};

// The shuttles of an aisle, and the moves of each.
#[derive(Clone, Copy, PartialEq, Eq, Debug)]
pub struct Aisle {
    pub shuttles: u16,
    pub moves: u16,
}

impl Aisle {
    pub fn new(shuttles: u16, moves: u16) -> Aisle
        ensures shuttles { result.shuttles ≡ shuttles }
        ensures moves { result.moves ≡ moves }
    {
        Aisle { shuttles, moves }
    }
}
