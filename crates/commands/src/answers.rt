// Answers as lines of text.
ghost use Rattle.std.specs.Prelude.{◌≡◌, Some};
ghost use Rattle.commands.specs.Texts.{refused_text, yes_or_no, moves_text, answer_text, held_text};

use runs::calls::{Answer, Outcome};
use std::fmt;
use words::Refusal;
use words::moves::Code;

// A refusal, shown as it is answered: by its number and in words.
#[derive(Clone, Copy, PartialEq, Eq, Debug)]
pub struct Refused(pub Refusal);

impl fmt::Display for Refused {
    ghost output = { λ r. Some (refused_text r.0) };

    fn fmt<W: fmt::Write>(&self, f: &mut fmt::Formatter<W>) -> fmt::Result {
        let words = self.0;
        let number = words.number();
        write!(f, "refused {number}: {words}")
    }
}

fn yes_or_no(yes: bool) -> &'static str
    ensures { result.now ≡ yes_or_no yes }
{
    if yes { "yes" } else { "no" }
}

// Moves by their codes, shown with a blank between them.
#[derive(Clone, Copy)]
pub struct Moves<'a>(pub &'a [u16]);

impl fmt::Display for Moves<'_> {
    ghost output = { λ m. Some (moves_text m.0.now) };

    fn fmt<W: fmt::Write>(&self, f: &mut fmt::Formatter<W>) -> fmt::Result {
        let Some((first, others)) = self.0.split_first() else {
            return Ok(());
        };
        let first = Code(*first);
        write!(f, "{first}")?;
        for code in others {
            let next = Code(*code);
            write!(f, " {next}")?;
        }
        Ok(())
    }
}

// What comes of a call, and the codes that the call's slice holds. It is shown as the line that answers the call.
#[derive(Clone, Copy)]
pub struct Answered<'a> {
    pub outcome: Outcome,
    pub codes: &'a [u16],
}

impl fmt::Display for Answered<'_> {
    ghost output = { λ a. Some (answer_text a.outcome a.codes.now) };

    fn fmt<W: fmt::Write>(&self, f: &mut fmt::Formatter<W>) -> fmt::Result {
        match self.outcome {
            Err(refusal) => {
                let refused = Refused(refusal);
                write!(f, "{refused}")
            }
            Ok(Answer::Done) => f.write_str("done"),
            Ok(Answer::Truth(yes, rounds)) => {
                let word = yes_or_no(yes);
                write!(f, "{word}, {rounds} rounds")
            }
            Ok(Answer::Found(Some(code), rounds)) => {
                let found = Code(code);
                write!(f, "{found}, {rounds} rounds")
            }
            Ok(Answer::Found(None, rounds)) => write!(f, "none, {rounds} rounds"),
            Ok(Answer::Listed(count)) => {
                let listed = Moves(&self.codes[..count.min(self.codes.len())]);
                write!(f, "{listed}")
            }
            Ok(Answer::Tested(yes)) => f.write_str(yes_or_no(yes)),
        }
    }
}

// What a cell holds, or why it is not told, shown as the line that answers it.
#[derive(Clone, Copy)]
pub struct Held(pub Result<Option<u16>, Refusal>);

impl fmt::Display for Held {
    ghost output = { λ h. Some (held_text h.0) };

    fn fmt<W: fmt::Write>(&self, f: &mut fmt::Formatter<W>) -> fmt::Result {
        match self.0 {
            Ok(Some(place)) => write!(f, "{place}"),
            Ok(None) => f.write_str("none"),
            Err(refusal) => {
                let refused = Refused(refusal);
                write!(f, "{refused}")
            }
        }
    }
}
