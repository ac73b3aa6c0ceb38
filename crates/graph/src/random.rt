// Random numbers by xorshift, from a seed that is not 0.
ghost use Rattle.std.specs.Prelude.{◌≤◌};

#[derive(Drop)]
pub struct Random {
    state: u64,
}

impl From<u64> for Random {
    fn from(seed: u64) -> Random {
        Random { state: seed }
    }
}

impl Random {
    // Steps the generator, and takes the remainder by m; 0 where m is 0.
    pub fn draw(&mut self, m: u64) -> u64
        ensures { result ≤ m }
    {
        let mut x = self.state;
        x ^= x << 13;
        x ^= x >> 7;
        x ^= x << 17;
        self.state = x;
        if m == 0 { 0 } else { x % m }
    }

    // The same for a number of 16 bits.
    pub fn below(&mut self, m: u16) -> u16
        ensures { result ≤ m }
    {
        self.draw(m as u64) as u16
    }
}
