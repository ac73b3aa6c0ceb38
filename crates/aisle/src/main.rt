// The program: a script on standard input, an answer on standard output for each of its commands. It also turns scripts into edit files and back.
#![tactic(auto)]

ghost use Rattle.std.specs.Prelude.{◌-◌, ◌^◌};
ghost use Rattle.std.specs.Iterator.{at_most};

use board::board::Board;
use boards::{Design, Use, with_board};
use commands::answers::{Answered, Held, Refused};
use commands::codes::{ask_of, codes_of, narrowed};
use commands::values::{Command, Move, Request, Setup, Task, Wrong};
use runs::calls::{Answer, Outcome};
use runs::steps::step;
use script::edits::{Damage, Packing, unpack};
use script::reading::read_line;
use std::alloc::{AllocError, Global};
use std::env::FillError;
use std::error::Error;
use std::io::{BufRead, BufReader, Read, Stdin, Write};
use std::process::ExitCode;
use std::rt::Env;
use std::{fmt, io};
use stores::store::Store;
use tables::checks::check_sizes;
use tables::table::Table;
use words::aisles::Aisle;

// A store holds no more waits, and a sparse tree uses no more records.
const MOST: usize = 65535;

// The moves of the largest board.
const MOVES: usize = 65536;

// One byte more than the longest edit file, so that a longer one is seen to be too long.
const LONGEST: u64 = 16385;

// Why the program ends early.
#[derive(Debug, Drop)]
enum Fault {
    Line(u64, Wrong),
    File(Damage),
    Usage,
    Memory,
    Io(io::Error),
}

impl fmt::Display for Fault {
    fn fmt<W: fmt::Write>(&self, f: &mut fmt::Formatter<W>) -> fmt::Result {
        match self {
            Fault::Line(number, wrong) => write!(f, "line {number}: {wrong}"),
            Fault::File(damage) => write!(f, "{damage}"),
            Fault::Usage => write!(f, "usage: aisle [--pack | --unpack]"),
            Fault::Memory => write!(f, "{}", Wrong::Memory),
            Fault::Io(e) => write!(f, "{e}"),
        }
    }
}

impl Error for Fault {}

impl From<io::Error> for Fault {
    fn from(e: io::Error) -> Fault {
        Fault::Io(e)
    }
}

impl From<AllocError> for Fault {
    fn from(_e: AllocError) -> Fault {
        Fault::Memory
    }
}

impl From<Damage> for Fault {
    fn from(damage: Damage) -> Fault {
        Fault::File(damage)
    }
}

// Standard input, line by line. It gives its commands, each with the number of its line.
#[derive(Drop)]
struct Script {
    heap: Global,
    source: BufReader<Stdin>,
    line: Vec<u8>,
    number: u64,
}

impl Iterator for Script {
    type Item = Result<(u64, Command), Fault>;

    // No script has 2^64 lines.
    ghost remaining = { λ s. at_most (2 ^ 64 - s.number) };

    fn next(&mut self) -> Option<Result<(u64, Command), Fault>> {
        for before in self.number..u64::MAX {
            self.line.clear();
            let read = self.source.read_until(b'\n', &mut self.line);
            if matches!(read, Ok(0)) {
                return None;
            }
            let number = before + 1;
            self.number = number;
            if let Err(e) = read {
                return Some(Err(Fault::Io(e)));
            }
            match read_line(self.heap, self.line.as_slice()) {
                Ok(None) => {}
                Ok(Some(command)) => return Some(Ok((number, command))),
                Err(wrong) => return Some(Err(Fault::Line(number, wrong))),
            }
        }
        None
    }
}

// Answers a line that asks for a board, and says whether it is made.
fn announce(rt: &HostRuntime, setup: Setup) -> Result<bool, Fault> {
    match check_sizes(setup.aisle()) {
        Ok(()) => {
            rt.println(setup)?;
            Ok(true)
        }
        Err(refusal) => {
            rt.println(Refused(refusal))?;
            Ok(false)
        }
    }
}

fn call<T: Table, S: Store>(
    board: &mut Board<T, S>,
    aisle: Aisle,
    request: Request,
    codes: &mut [u16],
) -> Outcome {
    step(board, ask_of(aisle, request)?, codes)
}

// A move without a code makes an order wrong.
fn test<T: Table, S: Store>(
    heap: Global,
    board: &Board<T, S>,
    moves: &[Move],
) -> Result<bool, AllocError> {
    match codes_of(heap, moves)? {
        Some(codes) => Ok(board.test(codes.as_slice())),
        None => Ok(false),
    }
}

// Carries out a task on a board of this size, and answers it. The codes are room for a list.
fn carry_out<T: Table, S: Store>(
    rt: &HostRuntime,
    board: &mut Board<T, S>,
    aisle: Aisle,
    task: Task,
    codes: &mut [u16],
) -> Result<(), Fault> {
    match task {
        Task::Call(request) => {
            let outcome = call(board, aisle, request, codes);
            rt.println(Answered { outcome, codes })?;
        }
        Task::Test(moves) => {
            let outcome = Ok(Answer::Tested(test(rt.alloc(), board, moves.as_slice())?));
            rt.println(Answered { outcome, codes })?;
        }
        Task::Cell(s, t, i) => {
            let held = board.cell(narrowed(s), narrowed(t), narrowed(i));
            rt.println(Held(held))?;
        }
    }
    Ok(())
}

// The commands of a script that a board of this size answers: up to the end, or to one that makes another board.
#[derive(Drop)]
struct Service<'a> {
    rt: &'a HostRuntime,
    script: &'a mut Script,
    aisle: Aisle,
}

impl Use for Service<'_> {
    type Outcome = Result<Option<Setup>, Fault>;

    // what is answered is printed, of which no clause speaks
    ghost gives = { λ u b r. Unit {0} };

    fn on<T: Table + Drop, S: Store + Drop>(
        mut self,
        mut board: Board<T, S>,
    ) -> Result<Option<Setup>, Fault> {
        let (rt, aisle) = (self.rt, self.aisle);
        let mut codes = Vec::from_elem(rt.alloc(), 0u16, MOVES)?;
        for command in &mut *self.script {
            match command? {
                (_, Command::Task(task)) => {
                    carry_out(rt, &mut board, aisle, task, codes.as_mut_slice())?;
                }
                (_, Command::Board(other)) => if announce(rt, other)? {
                    return Ok(Some(other));
                },
            }
        }
        Ok(None)
    }
}

// Answers tasks on the board that is asked for, and gives the next board that the script makes.
fn serve(rt: &HostRuntime, script: &mut Script, setup: Setup) -> Result<Option<Setup>, Fault> {
    let aisle = setup.aisle();
    let design = Design {
        aisle,
        table: setup.table,
        store: setup.store,
        cells: MOST,
        waits: MOST,
    };
    with_board(rt.alloc(), design, Service { rt, script, aisle })?
}

// The first board that a script makes.
fn first_board(rt: &HostRuntime, script: &mut Script) -> Result<Option<Setup>, Fault> {
    for command in script {
        match command? {
            (_, Command::Board(setup)) => if announce(rt, setup)? {
                return Ok(Some(setup));
            },
            (number, _) => return Err(Fault::Line(number, Wrong::NoBoard)),
        }
    }
    Ok(None)
}

fn run_script(rt: &HostRuntime, script: &mut Script) -> Result<(), Fault> {
    let mut next = first_board(rt, script)?;
    // Each board comes from the one before it, or there is an error: an iterator of boards is no plainer.
    for _ in 0..u64::MAX {
        let Some(setup) = next else {
            break;
        };
        next = serve(rt, script, setup)?;
    }
    Ok(())
}

fn pack_script(rt: &HostRuntime, script: &mut Script) -> Result<(), Fault> {
    let heap = rt.alloc();
    let mut packing = Packing::new(heap);
    for command in &mut *script {
        let (number, command) = command?;
        packing
            .take(command)
            .map_err(|wrong| Fault::Line(number, wrong))?;
    }
    let number = script.number;
    let file = packing
        .finish(heap)
        .map_err(|wrong| Fault::Line(number, wrong))?;
    rt.stdout().write_all(file.as_slice())?;
    Ok(())
}

fn unpack_file(rt: &HostRuntime) -> Result<(), Fault> {
    let heap = rt.alloc();
    let mut file = Vec::new(heap);
    let mut source = rt.stdin().take(LONGEST);
    source.read_to_end(&mut file)?;
    rt.print(unpack(heap, file.as_slice())?)?;
    Ok(())
}

// What the arguments ask for.
#[derive(Clone, Copy)]
enum Mode {
    Run,
    Pack,
    Unpack,
}

impl TryFrom<&[u8]> for Mode {
    type Error = Fault;

    fn try_from(word: &[u8]) -> Result<Mode, Fault> {
        match word {
            b"--pack" => Ok(Mode::Pack),
            b"--unpack" => Ok(Mode::Unpack),
            _ => Err(Fault::Usage),
        }
    }
}

fn asked_mode(rt: &HostRuntime) -> Result<Mode, Fault> {
    // Arguments need not be text, nor need the program's own name, which `env::args` would read: so they are read here as bytes.
    let mut word = [0u8; 16];
    let mut more = [0u8; 1];
    match rt.arg(1, &mut word) {
        Err(FillError::NotPresent) => Ok(Mode::Run),
        Err(FillError::TooLong) => Err(Fault::Usage),
        Ok(length) => match rt.arg(2, &mut more) {
            Err(FillError::NotPresent) => Mode::try_from(&word[..length]),
            _ => Err(Fault::Usage),
        },
    }
}

fn run(rt: &HostRuntime) -> Result<(), Fault> {
    let heap = rt.alloc();
    let mut script = Script {
        heap,
        source: BufReader::new(heap, rt.stdin())?,
        line: Vec::new(heap),
        number: 0,
    };
    match asked_mode(rt)? {
        Mode::Run => run_script(rt, &mut script),
        Mode::Pack => pack_script(rt, &mut script),
        Mode::Unpack => unpack_file(rt),
    }
}

fn main(rt: HostRuntime) -> ExitCode {
    match run(&rt) {
        Ok(()) => ExitCode::SUCCESS,
        Err(fault) => {
            let _ = eprintln!(rt; "{fault}");
            ExitCode::FAILURE
        }
    }
}
