// Moves by their codes: the move at place i of shuttle s is written s.i, and has the code s * 4096 + i.
ghost use Rattle.std.specs.Prelude.{◌≡◌, ◌+◌, ◌*◌, Some};
ghost use Rattle.words.specs.Codes.{move_of};
ghost use Rattle.words.specs.Texts.{move_text};

use std::fmt;

// The code of a move. It is shown as the move is written.
#[derive(Clone, Copy, PartialEq, Eq, PartialOrd, Ord, Debug)]
pub struct Code(pub u16);

impl Code {
    // The move's shuttle.
    pub fn shuttle(self) -> u16
        ensures { result ≡ (move_of self.0).0 }
    {
        self.0 / 4096
    }

    // The move's place on its shuttle.
    pub fn place(self) -> u16
        ensures { result ≡ (move_of self.0).1 }
    {
        self.0 % 4096
    }
}

impl fmt::Display for Code {
    ghost output = { λ c. Some (move_text c.0) };

    fn fmt<W: fmt::Write>(&self, f: &mut fmt::Formatter<W>) -> fmt::Result {
        let shuttle = self.shuttle();
        let place = self.place();
        write!(f, "{shuttle}.{place}")
    }
}
