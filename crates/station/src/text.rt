// A page: bytes and numbers, written one after the other. A byte that finds no room is left out: the caller sees to it that there is room.
ghost use Rattle.std.specs.Prelude.{◌≡◌, ◌+◌, ◌^◌, ◌<◌, ◌≤◌, [], ◌∷◌, decimal};
ghost use Rattle.station.specs.Text.{Pours};

// The bytes of a page, and where the next one goes.
#[derive(Drop)]
pub(crate) struct Page<'a> {
    pub bytes: &'a mut [u8],
    pub end: usize,
}

impl<'a> Page<'a> {
    // An empty page over these bytes.
    pub(crate) fn over(bytes: &'a mut [u8]) -> Page<'a>
        ensures same_bytes { result.bytes.ghost_name ≡ bytes.entry.ghost_name }
        ensures bytes { result.bytes.now ≡ bytes.old }
        ensures end { result.end ≡ 0 }
    {
        Page { bytes, end: 0 }
    }

    pub(crate) fn put_byte(&mut self, byte: u8)
        requires { self.old.end < 2 ^ 40 }
        ensures same_bytes { self.new.bytes.ghost_name ≡ self.old.bytes.ghost_name }
        ensures written { Pours self.old.bytes.now self.old.end (byte ∷ []) self.new.bytes.now self.new.end }
        ensures short { self.new.end ≤ self.old.end + 1 }
    {
        if self.end < self.bytes.len() {
            self.bytes[self.end] = byte;
        }
        self.end += 1;
    }

    // Writes a number in decimal digits. Through `fmt::Write` the page would need ghost members that say again what `Pours` says, and this is shorter.
    pub(crate) fn put_number(&mut self, n: u32)
        requires { self.old.end < 2 ^ 32 }
        ensures same_bytes { self.new.bytes.ghost_name ≡ self.old.bytes.ghost_name }
        ensures written { Pours self.old.bytes.now self.old.end (decimal n) self.new.bytes.now self.new.end }
        ensures short { self.new.end ≤ self.old.end + 10 }
    {
        if n < 10 {
            return self.put_byte(b'0' + n as u8);
        }
        self.put_number(n / 10);
        self.put_byte(b'0' + (n % 10) as u8);
    }
}
