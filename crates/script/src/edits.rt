// Scripts as edit files, and edit files as scripts.
ghost use Rattle.std.specs.Prelude.{◌≡◌, ◌*◌, ◌≤◌, true, IfOk, Some, vec_len, string_bytes};
ghost use Rattle.station.specs.Edit.{step_of, well_formed};
ghost use Rattle.script.specs.Texts.{line_text, script_text, damage_text};
ghost use Rattle.script.specs.declared.edits.Damage.TheVariants.{Memory};

use commands::codes::{LARGEST, ask_of};
use commands::values::{Command, Request, Setup, Task, Wrong};
use runs::calls::Ask;
use station::edit::{read_header, read_step};
use std::alloc::{AllocError, Global};
use std::error::Error;
use std::fmt;
use words::Refusal;
use words::aisles::Aisle;
use words::kinds::{StoreKind, TableKind};
use words::moves::Code;

// The longest file that is well formed has so many steps.
const MOST_STEPS: u16 = 2729;

// The steps begin at this byte, right behind the header.
const STEPS_BEGIN: u16 = 8;

// An edit file that is being written: the sizes of its board once they are known, and its steps as bytes.
#[derive(Drop)]
pub struct Packing {
    aisle: Option<Aisle>,
    steps: u16,
    bytes: Vec<u8>,
    ghost size: { vec_len bytes ≡ 6 * steps },
    ghost few: { steps ≤ 2729 },
}

// The number in 16 bits.
fn packed_number(number: u32) -> Result<u16, Wrong> {
    u16::try_from(number).map_err(|_| Wrong::NoCode)
}

// The three numbers of the step that is read as this call.
fn step_of(ask: Ask) -> Result<(u16, u16, u16), Wrong>
    ensures { IfOk result (λ s. step_of s.0 s.1 s.2 ≡ Some ask) }
{
    match ask {
        Ask::Place(u, v) => Ok((1, u, v)),
        Ask::Remove(u, v) => Ok((2, u, v)),
        Ask::Before(u, v) => Ok((3, u, v)),
        Ask::FirstAfter(u, t) => Ok((4, u, t)),
        Ask::LastBefore(u, t) => Ok((5, u, t)),
        _ => Err(Wrong::Unpackable),
    }
}

// The call with its numbers as they are: an edit file can ask for moves that its board does not have.
fn packed_ask(request: Request) -> Result<Ask, Wrong> {
    if let Request::FirstAfter(_, t) | Request::LastBefore(_, t) = request {
        packed_number(t)?;
    }
    ask_of(LARGEST, request).map_err(|_| Wrong::NoCode)
}

impl Packing {
    pub fn new(heap: Global) -> Packing {
        Packing {
            aisle: None,
            steps: 0,
            bytes: Vec::new(heap),
        }
    }

    fn begin(&mut self, setup: Setup) -> Result<(), Wrong> {
        if self.aisle.is_some() {
            return Err(Wrong::SecondBoard);
        }
        let shuttles = packed_number(setup.shuttles)?;
        let moves = packed_number(setup.moves)?;
        self.aisle = Some(Aisle::new(shuttles, moves));
        Ok(())
    }

    // Writes a step at the end.
    fn put_step(&mut self, kind: u16, x: u16, y: u16) -> Result<(), Wrong> {
        if self.steps >= MOST_STEPS {
            return Err(Wrong::TooManySteps);
        }
        let step = [kind.to_be_bytes(), x.to_be_bytes(), y.to_be_bytes()];
        self.bytes.extend_from_slice(step.as_flattened())?;
        self.steps += 1;
        Ok(())
    }

    fn add(&mut self, request: Request) -> Result<(), Wrong> {
        if self.aisle.is_none() {
            return Err(Wrong::NoBoard);
        }
        let (kind, x, y) = step_of(packed_ask(request)?)?;
        self.put_step(kind, x, y)
    }

    // Adds what the command says to the file.
    pub fn take(&mut self, command: Command) -> Result<(), Wrong> {
        match command {
            Command::Board(setup) => self.begin(setup),
            Command::Task(Task::Call(request)) => self.add(request),
            Command::Task(_) => Err(Wrong::Unpackable),
        }
    }

    // The whole file: it is well formed.
    pub fn finish(self, heap: Global) -> Result<Vec<u8>, Wrong>
        ensures { IfOk result (λ v. well_formed v.items ≡ true) }
    {
        let Packing {
            aisle,
            steps,
            bytes,
        } = self;
        let Aisle { shuttles, moves } = aisle.ok_or(Wrong::NoBoard)?;
        let header = [
            shuttles.to_be_bytes(),
            moves.to_be_bytes(),
            steps.to_be_bytes(),
            STEPS_BEGIN.to_be_bytes(),
        ];
        let mut file = Vec::from_slice(heap, header.as_flattened())?;
        file.extend_from_slice(bytes.as_slice())?;
        Ok(file)
    }
}

// Why an edit file gives no script: its form, or the number of a step, from 1, whose kind is not known.
#[derive(Clone, Copy, PartialEq, Eq, Debug)]
pub enum Damage {
    Form,
    Step(u16),
    Memory,
}

impl fmt::Display for Damage {
    ghost output = { λ damage. Some (damage_text damage) };

    fn fmt<W: fmt::Write>(&self, f: &mut fmt::Formatter<W>) -> fmt::Result {
        match self {
            Damage::Form => {
                let form = Refusal::BadForm;
                write!(f, "{form}")
            }
            Damage::Step(number) => write!(f, "step {number}: there is no such kind"),
            Damage::Memory => {
                let memory = Wrong::Memory;
                write!(f, "{memory}")
            }
        }
    }
}

impl Error for Damage {}

impl From<AllocError> for Damage {
    ghost from_gives = { λ _ damage. damage ≡ Memory };

    fn from(_e: AllocError) -> Damage {
        Damage::Memory
    }
}

// A step, shown as the line of its call; calls that no edit file has are shown as nothing.
#[derive(Clone, Copy)]
struct Line(Ask);

impl fmt::Display for Line {
    ghost output = { λ line. Some (line_text line.0) };

    fn fmt<W: fmt::Write>(&self, f: &mut fmt::Formatter<W>) -> fmt::Result {
        match self.0 {
            Ask::Place(u, v) => writeln!(f, "place {} {}", Code(u), Code(v)),
            Ask::Remove(u, v) => writeln!(f, "remove {} {}", Code(u), Code(v)),
            Ask::Before(u, v) => writeln!(f, "before {} {}", Code(u), Code(v)),
            Ask::FirstAfter(u, t) => writeln!(f, "first-after {} {t}", Code(u)),
            Ask::LastBefore(u, t) => writeln!(f, "last-before {} {t}", Code(u)),
            _ => Ok(()),
        }
    }
}

// The script of an edit file, over a plain table and a loose list.
pub fn unpack(heap: Global, file: &[u8]) -> Result<String, Damage>
    ensures formed { IfOk result (λ script. well_formed file.now ≡ true) }
    ensures text { IfOk result (λ script. string_bytes script ≡ script_text file.now) }
{
    let header = read_header(file).ok_or(Damage::Form)?;
    let setup = Setup {
        shuttles: u32::from(header.aisle.shuttles),
        moves: u32::from(header.aisle.moves),
        table: TableKind::Plain,
        store: StoreKind::Loose,
    };
    let mut script = String::new(heap);
    writeln!(script, "{setup}")?;
    for i in 0..header.steps {
        let line = Line(read_step(file, i).ok_or(Damage::Step(i + 1))?);
        write!(script, "{line}")?;
    }
    Ok(script)
}
