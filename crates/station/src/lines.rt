// The lines of the report.
ghost use Rattle.std.specs.Prelude.{◌≡◌, ◌+◌, ◌^◌, ◌<◌, ◌≤◌};
ghost use Rattle.station.specs.Text.{Pours};
ghost use Rattle.station.specs.Report.{next_number, returned_number, move_text, finding_text, line, first_line};

use crate::edit::Header;
use crate::text::Page;
use runs::calls::{Answer, Outcome};
use words::moves::Code;

// The number that the call returned.
fn returned(outcome: Outcome) -> u32
    ensures { result ≡ returned_number outcome }
{
    match outcome {
        Ok(_) => 0,
        Err(e) => e.number() as u32,
    }
}

impl<'a> Page<'a> {
    // Writes a blank and a number.
    fn put_next(&mut self, n: u32)
        requires { self.old.end < 2 ^ 31 }
        ensures same_bytes { self.new.bytes.ghost_name ≡ self.old.bytes.ghost_name }
        ensures written { Pours self.old.bytes.now self.old.end (next_number n) self.new.bytes.now self.new.end }
        ensures short { self.new.end ≤ self.old.end + 11 }
    {
        self.put_byte(b' ');
        self.put_number(n);
    }

    // Writes a move as s.i, or - for none.
    fn put_move(&mut self, found: Option<u16>)
        requires { self.old.end < 2 ^ 30 }
        ensures same_bytes { self.new.bytes.ghost_name ≡ self.old.bytes.ghost_name }
        ensures written { Pours self.old.bytes.now self.old.end (move_text found) self.new.bytes.now self.new.end }
        ensures short { self.new.end ≤ self.old.end + 21 }
    {
        match found {
            None => self.put_byte(b'-'),
            Some(u) => {
                self.put_number(Code(u).shuttle() as u32);
                self.put_byte(b'.');
                self.put_number(Code(u).place() as u32);
            }
        }
    }

    // Writes what a question that is taken adds to its line.
    fn put_finding(&mut self, outcome: Outcome)
        requires { self.old.end < 2 ^ 29 }
        ensures same_bytes { self.new.bytes.ghost_name ≡ self.old.bytes.ghost_name }
        ensures written { Pours self.old.bytes.now self.old.end (finding_text outcome) self.new.bytes.now self.new.end }
        ensures short { self.new.end ≤ self.old.end + 33 }
    {
        match outcome {
            Ok(Answer::Truth(yes, rounds)) => {
                self.put_byte(b' ');
                self.put_byte(if yes { b'1' } else { b'0' });
                self.put_next(rounds);
            }
            Ok(Answer::Found(found, rounds)) => {
                self.put_byte(b' ');
                self.put_move(found);
                self.put_next(rounds);
            }
            _ => {}
        }
    }

    // Writes the line of the step with this number.
    pub(crate) fn put_line(&mut self, number: u32, outcome: Outcome)
        requires { self.old.end < 2 ^ 28 }
        ensures same_bytes { self.new.bytes.ghost_name ≡ self.old.bytes.ghost_name }
        ensures written { Pours self.old.bytes.now self.old.end (line number outcome) self.new.bytes.now self.new.end }
    {
        self.put_number(number);
        self.put_next(returned(outcome));
        self.put_finding(outcome);
        self.put_byte(b'\n');
    }

    // Writes the first line.
    pub(crate) fn put_first_line(&mut self, header: Header)
        requires { self.old.end < 2 ^ 28 }
        ensures same_bytes { self.new.bytes.ghost_name ≡ self.old.bytes.ghost_name }
        ensures written { Pours self.old.bytes.now self.old.end (first_line header.aisle.shuttles header.aisle.moves header.steps) self.new.bytes.now self.new.end }
    {
        self.put_number(header.aisle.shuttles as u32);
        self.put_next(header.aisle.moves as u32);
        self.put_next(header.steps as u32);
        self.put_byte(b'\n');
    }
}
