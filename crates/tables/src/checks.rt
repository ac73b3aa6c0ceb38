// What every kind of table checks and compares.
ghost use Rattle.std.specs.Prelude.{◌≡◌, ◌==◌, nat_le, nat_lt};
ghost use Rattle.words.specs.Refusals.{then, unless, refused_if};
ghost use Rattle.tables.specs.Meaning.{one, smaller as smaller_of, at_most};
ghost use Rattle.tables.specs.Answers.{allowed, valued, sizable};

use words::Refusal;
use words::aisles::Aisle;

// Whether a table can have these sizes.
#[tactic(auto, unfolding(crate::specs::Answers::sizable))]
pub fn check_sizes(aisle: Aisle) -> Result<(), Refusal>
    ensures { result ≡ sizable aisle.shuttles aisle.moves }
{
    if (1..=16).contains(&aisle.shuttles) && (1..=4096).contains(&aisle.moves) {
        Ok(())
    } else {
        Err(Refusal::BadSize)
    }
}

// Whether a buffer is as long as it needs to be.
pub fn check_length(needed: usize, given: usize) -> Result<(), Refusal>
    ensures { result ≡ unless (nat_le needed given) 9 }
{
    if needed > given {
        Err(Refusal::TooShort)
    } else {
        Ok(())
    }
}

// Whether a shuttle of the aisle has a place j.
#[tactic(auto, unfolding(crate::specs::Answers::valued))]
pub fn check_value(aisle: Aisle, j: u16) -> Result<(), Refusal>
    ensures { result ≡ valued aisle.moves j }
{
    if j >= aisle.moves {
        Err(Refusal::NoSuchPlace)
    } else {
        Ok(())
    }
}

// Whether s and t are two different shuttles of the aisle.
fn check_pair(aisle: Aisle, s: u16, t: u16) -> Result<(), Refusal>
    ensures { result ≡ then (unless (nat_lt s aisle.shuttles) 1) (then (unless (nat_lt t aisle.shuttles) 1) (refused_if (s == t) 3)) }
{
    if s >= aisle.shuttles || t >= aisle.shuttles {
        Err(Refusal::NoSuchShuttle)
    } else if s == t {
        Err(Refusal::SameShuttle)
    } else {
        Ok(())
    }
}

// Whether the cell (s, t, i) is one of the aisle.
pub fn check_cell(aisle: Aisle, s: u16, t: u16, i: u16) -> Result<(), Refusal>
    ensures { result ≡ allowed aisle.shuttles aisle.moves s t i }
{
    check_pair(aisle, s, t)?;
    check_value(aisle, i)
}

// The smaller of two values, where none is greater than each number.
pub fn smaller(a: Option<u16>, b: Option<u16>) -> Option<u16>
    ensures { result ≡ smaller_of a b }
{
    match (a, b) {
        (Some(x), Some(y)) => Some(x.min(y)),
        _ => a.or(b),
    }
}

// Whether a cell holds a value, and one of at most j.
pub fn at_most(j: u16, a: Option<u16>) -> bool
    ensures { result ≡ at_most j a }
{
    a.is_some_and(|x| x <= j)
}

// What a cell adds to the count of the filled ones.
pub fn count_of(a: Option<u16>) -> u32
    ensures { result ≡ one a }
{
    u32::from(a.is_some())
}
