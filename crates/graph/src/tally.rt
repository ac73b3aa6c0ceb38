// What was called and answered, counted.
ghost use Rattle.std.specs.Prelude.{◌≡◌, ◌≤◌, Some};
ghost use Rattle.graph.specs.Kinds.{kind_of, kind_word};

use runs::calls::{Answer, Ask, Outcome};
use std::{fmt, io};

// The kinds of calls.
#[derive(Clone, Copy, PartialEq, Eq, Debug)]
pub enum Kind {
    Place,
    Remove,
    Before,
    FirstAfter,
    LastBefore,
    List,
    Push,
    Test,
}

const KINDS: [Kind; 8] = [
    Kind::Place,
    Kind::Remove,
    Kind::Before,
    Kind::FirstAfter,
    Kind::LastBefore,
    Kind::List,
    Kind::Push,
    Kind::Test,
];

impl From<Ask> for Kind {
    ghost from_gives = { λ ask kind. kind ≡ kind_of ask };

    fn from(ask: Ask) -> Kind {
        match ask {
            Ask::Place(_, _) => Kind::Place,
            Ask::Remove(_, _) => Kind::Remove,
            Ask::Before(_, _) => Kind::Before,
            Ask::FirstAfter(_, _) => Kind::FirstAfter,
            Ask::LastBefore(_, _) => Kind::LastBefore,
            Ask::List => Kind::List,
            Ask::Push(_) => Kind::Push,
            Ask::Test => Kind::Test,
        }
    }
}

impl fmt::Display for Kind {
    ghost output = { λ kind. Some (kind_word kind) };

    fn fmt<W: fmt::Write>(&self, f: &mut fmt::Formatter<W>) -> fmt::Result {
        f.write_str(match self {
            Kind::Place => "place",
            Kind::Remove => "remove",
            Kind::Before => "before",
            Kind::FirstAfter => "first-after",
            Kind::LastBefore => "last-before",
            Kind::List => "list",
            Kind::Push => "push",
            Kind::Test => "test",
        })
    }
}

// How often a kind of call was made, and how often it was done.
#[derive(Clone, Copy)]
struct Calls {
    made: u64,
    done: u64,
}

// The calls of each kind, and how often each refusal was given, each number of rounds was taken, and a test said no and yes.
// They are counted by their numbers: a map would allocate, and no count may begin to fail.
#[derive(Drop)]
pub struct Tally {
    calls: [Calls; 8],
    refused: [u64; 13],
    rounds: [u64; 16],
    tested: [u64; 2],
}

fn count(row: &mut [u64], i: usize) {
    if let Some(n) = row.get_mut(i) {
        *n = n.saturating_add(1);
    }
}

impl Tally {
    pub fn new() -> Tally {
        Tally {
            calls: [Calls { made: 0, done: 0 }; 8],
            refused: [0; 13],
            rounds: [0; 16],
            tested: [0; 2],
        }
    }

    // Counts a call and what came of it.
    pub fn note(&mut self, ask: Ask, outcome: Outcome) {
        let calls = &mut self.calls[Kind::from(ask) as usize];
        calls.made = calls.made.saturating_add(1);
        match outcome {
            Err(refusal) => count(&mut self.refused, refusal.number() as usize),
            Ok(answer) => {
                calls.done = calls.done.saturating_add(1);
                match answer {
                    Answer::Truth(_, rounds) | Answer::Found(_, rounds) => {
                        count(&mut self.rounds, rounds as usize)
                    }
                    Answer::Tested(yes) => count(&mut self.tested, yes as usize),
                    Answer::Done | Answer::Listed(_) => {}
                }
            }
        }
    }

    // How often the kind with this number was called: 0 where there is no such kind.
    pub fn calls_of(&self, kind: usize) -> u64
        ensures none { 8 ≤ kind → result ≡ 0 }
    {
        self.calls.get(kind).map_or(0, |calls| calls.made)
    }

    // All rounds of all questions.
    pub fn all_rounds(&self) -> u64 {
        (0..16u64).zip(self.rounds.iter()).fold(
            0,
            |sum: u64, (rounds, n)| sum.saturating_add(n.saturating_mul(rounds)),
        )
    }

    // Prints how often each kind was called and done, and each refusal by its number.
    pub fn print_calls(&self, rt: &HostRuntime) -> io::Result<()> {
        for (kind, calls) in KINDS.iter().zip(self.calls.iter()) {
            if calls.made > 0 {
                let Calls { made, done } = *calls;
                println!(rt; "called {kind} {made} {done}")?;
            }
        }
        print_row(rt, "refused", &self.refused)
    }

    // Prints how many questions took how many rounds, and how many tests said no and yes.
    pub fn print_rounds(&self, rt: &HostRuntime) -> io::Result<()> {
        print_row(rt, "rounds", &self.rounds)?;
        print_row(rt, "tested", &self.tested)
    }
}

// Prints the counts that are not 0, each with its number.
fn print_row(rt: &HostRuntime, word: &str, row: &[u64]) -> io::Result<()> {
    for (i, n) in row.iter().enumerate() {
        if *n > 0 {
            println!(rt; "{word} {i} {n}")?;
        }
    }
    Ok(())
}
