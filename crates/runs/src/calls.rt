// The calls of a board as values, and what they answer. A list and a push write to their slice, a test reads it.
use words::Refusal;

#[derive(Clone, Copy, PartialEq, Eq, Debug)]
pub enum Ask {
    Place(u16, u16),
    Remove(u16, u16),
    Before(u16, u16),
    FirstAfter(u16, u16),
    LastBefore(u16, u16),
    List,
    Push(u16),
    Test,
}

// What a call answers that is not refused. A question adds its rounds; one that is refused has none.
#[derive(Clone, Copy, PartialEq, Eq, Debug)]
pub enum Answer {
    Done,
    Truth(bool, u32),
    Found(Option<u16>, u32),
    Listed(usize),
    Tested(bool),
}

pub type Outcome = Result<Answer, Refusal>;

// A call of a run, with a slice of its own, and its outcome once it is made.
#[derive(Drop)]
pub struct Call {
    pub ask: Ask,
    pub slice: Vec<u16>,
    pub answer: Option<Outcome>,
}
