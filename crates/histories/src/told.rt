// Calls and their outcomes in words.
use graph::tally::Kind;
use runs::calls::{Answer, Ask, Outcome};
use std::fmt;

// The rounds of a question that was taken.
pub fn rounds_of(outcome: Outcome) -> Option<u32> {
    match outcome {
        Ok(Answer::Truth(_, rounds) | Answer::Found(_, rounds)) => Some(rounds),
        _ => None,
    }
}

// The outcome with no rounds, as the graph search gives it.
pub fn without_rounds(outcome: Outcome) -> Outcome {
    match outcome {
        Ok(Answer::Truth(yes, _)) => Ok(Answer::Truth(yes, 0)),
        Ok(Answer::Found(found, _)) => Ok(Answer::Found(found, 0)),
        other => other,
    }
}

// A call, shown by its kind and its two numbers, 0 where it has none.
#[derive(Clone, Copy)]
pub struct Asked(pub Ask);

impl fmt::Display for Asked {
    fn fmt<W: fmt::Write>(&self, f: &mut fmt::Formatter<W>) -> fmt::Result {
        let kind = Kind::from(self.0);
        let (first, second) = match self.0 {
            Ask::Place(u, v) | Ask::Remove(u, v) | Ask::Before(u, v) => (u, v),
            Ask::FirstAfter(u, t) | Ask::LastBefore(u, t) => (u, t),
            Ask::Push(v) => (v, 0),
            Ask::List | Ask::Test => (0, 0),
        };
        write!(f, "{kind} {first} {second}")
    }
}

// What came of a call, shown by a word and its number, 0 where it has none, and without its rounds.
#[derive(Clone, Copy)]
pub struct Told(pub Outcome);

impl fmt::Display for Told {
    fn fmt<W: fmt::Write>(&self, f: &mut fmt::Formatter<W>) -> fmt::Result {
        let (word, number) = match self.0 {
            Err(refusal) => ("refused", refusal.number() as usize),
            Ok(Answer::Done) => ("done", 0),
            Ok(Answer::Truth(yes, _)) => ("before", yes as usize),
            Ok(Answer::Found(Some(u), _)) => ("found", u as usize),
            Ok(Answer::Found(None, _)) => ("none", 0),
            Ok(Answer::Listed(n)) => ("listed", n),
            Ok(Answer::Tested(yes)) => ("tested", yes as usize),
        };
        write!(f, "{word} {number}")
    }
}
