// What came of a history: a checksum of all that was returned, the counts, and the time of each kind of call.
use graph::tally::{Kind, Tally};
use runs::calls::{Answer, Ask, Outcome};

#[derive(Drop)]
pub struct Score {
    pub checksum: u32,
    pub tally: Tally,
    // the time of all calls of a kind, by its number: a map would allocate between two calls that are timed
    nanos: [u64; 8],
}

// What a question found, as a number: a code, 65,536 for none, or 1 and 0.
fn finding(answer: Answer) -> Option<u32> {
    match answer {
        Answer::Truth(yes, _) => Some(yes as u32),
        Answer::Found(Some(u), _) => Some(u as u32),
        Answer::Found(None, _) => Some(65536),
        Answer::Done | Answer::Listed(_) | Answer::Tested(_) => None,
    }
}

impl Score {
    pub fn new() -> Score {
        Score {
            checksum: 0,
            tally: Tally::new(),
            nanos: [0; 8],
        }
    }

    fn add(&mut self, number: u32) {
        self.checksum = self.checksum.wrapping_mul(31).wrapping_add(number);
    }

    // Takes what a call returned into the checksum: 0 or the refusal, and what a question found.
    pub fn sum(&mut self, outcome: Outcome) {
        match outcome {
            Err(refusal) => self.add(refusal.number() as u32),
            Ok(answer) => {
                self.add(0);
                if let Some(number) = finding(answer) {
                    self.add(number);
                }
            }
        }
    }

    // Counts a call and its time.
    pub fn note(&mut self, ask: Ask, outcome: Outcome, nanos: u64) {
        self.tally.note(ask, outcome);
        let spent = &mut self.nanos[Kind::from(ask) as usize];
        *spent = spent.saturating_add(nanos);
    }

    // The mean time of a call of the kind with this number, in nanoseconds: 0 where there is no such kind.
    pub fn mean(&self, kind: usize) -> u64 {
        let spent = self.nanos.get(kind).copied().unwrap_or(0);
        spent.checked_div(self.tally.calls_of(kind)).unwrap_or(0)
    }
}
