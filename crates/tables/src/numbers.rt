// Cells as numbers of a lent buffer: a place stands for itself, and 65,535 for an empty cell.
ghost use Rattle.std.specs.Prelude.{◌≡◌, ℕ, ◌<◌, false, true, min, length, slice_index};
ghost use Rattle.std.specs.Option.{MatchOption};
ghost use Rattle.std.specs.List.{filter_map, fold, reduce};
ghost use Rattle.tables.specs.Meaning.{at_most};
ghost use Rattle.tables.specs.Plain.{decoded, encoded};

use crate::checks::at_most;

// Stands for an empty cell; it is greater than each place, so the smaller of two numbers stands for the smaller of what they stand for.
pub const EMPTY: u16 = 65535;

// What a number of the buffer stands for.
pub fn decode(number: u16) -> Option<u16>
    ensures { result ≡ decoded number }
{
    (number != EMPTY).then_some(number)
}

// The number that stands for what a cell holds.
pub fn encode(value: Option<u16>) -> u16
    ensures { result ≡ encoded value }
{
    value.unwrap_or(EMPTY)
}

// The smallest of the numbers, and of the one that stands for an empty cell.
fn lowest(numbers: &[u16]) -> u16
    ensures { result ≡ fold min 65535 numbers.now }
{
    numbers.iter().fold(EMPTY, |low, number| low.min(*number))
}

// The smallest value that the numbers stand for. Each is decoded only after the search, which takes half the time.
pub fn least_of(numbers: &[u16]) -> Option<u16>
    ensures { result ≡ reduce min (filter_map decoded numbers.now) }
{
    decode(lowest(numbers))
}

// The last of the numbers that stands for at most j.
pub fn last_of(numbers: &[u16], j: u16) -> Option<usize>
    ensures { MatchOption result ((p : ℕ) → p < length numbers.now → at_most j (decoded (slice_index numbers.now p)) ≡ false) (λ p. (p < length numbers.now) × (at_most j (decoded (slice_index numbers.now p)) ≡ true) × ((q : ℕ) → p < q → q < length numbers.now → at_most j (decoded (slice_index numbers.now q)) ≡ false)) }
{
    numbers
        .iter()
        .rposition(|number| at_most(j, decode(*number)))
}
