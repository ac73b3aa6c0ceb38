// Long random histories of calls, on boards of every table and every store, compared call by call with the graph search.
#![tactic(auto)]

mod plan;
mod playing;
mod side;
mod told;

use anyhow::bail;
use boards::Design;
use graph::graph::Limits;
use playing::{Fault, History, Record, on_board};
use std::{env, io};
use told::{Asked, Told, rounds_of};
use words::kinds::{StoreKind, TableKind};

// How many calls each board gets, and where the random numbers begin, unless the arguments say otherwise.
const STEPS: u64 = 2000;

const SEED: u64 = 88172645463325252;

// The shuttles, the moves of each, and the waits that the store holds.
const SHAPES: [(u16, u16, u16); 12] = [
    (1, 1, 2),
    (1, 9, 3),
    (2, 1, 4),
    (2, 3, 0),
    (2, 33, 30),
    (3, 3, 4),
    (3, 3, 27),
    (4, 7, 12),
    (4, 8, 200),
    (5, 16, 400),
    (16, 1, 40),
    (16, 5, 300),
];

// Tables that can fill every cell.
const WHOLE: [TableKind; 3] = [TableKind::Plain, TableKind::Full, TableKind::Sparse];

// Tables that can be full with a cell empty.
const SCANT: [TableKind; 1] = [TableKind::Sparse];

const STORES: [StoreKind; 2] = [StoreKind::Loose, StoreKind::Ordered];

// Prints on which board of which history the first difference was: the table, the store, the shuttles, the moves, the waits and the cells.
fn print_board(rt: &HostRuntime, history: History, design: Design) -> io::Result<()> {
    let History { limits, seed, .. } = history;
    let Design { table, store, .. } = design;
    let (shuttles, moves) = (limits.shuttles, limits.moves);
    let (waits, cells) = (limits.waits, limits.cells);
    println!(rt; "seed {seed}")?;
    println!(rt; "{table} {store} {shuttles} {moves} {waits} {cells}")
}

// Prints the call, its two outcomes and what differed.
fn print_fault(rt: &HostRuntime, fault: Fault) -> io::Result<()> {
    let Fault { step, difference } = fault;
    let call = Asked(difference.ask);
    let board = Told(difference.board);
    let rounds = rounds_of(difference.board).unwrap_or(0);
    let graph = Told(difference.graph);
    let what = difference.what;
    println!(rt; "step {step}")?;
    println!(rt; "call {call}")?;
    println!(rt; "board {board} {rounds}")?;
    println!(rt; "graph {graph}")?;
    println!(rt; "they differ in {what}")
}

// Plays the history on boards of these tables and every store. The first difference is printed, and ends it.
fn on_all(
    rt: &HostRuntime,
    history: History,
    tables: &[TableKind],
    record: &mut Record,
) -> anyhow::Result<()> {
    for table in tables {
        for store in STORES {
            let design = history.design(*table, store);
            if let Some(fault) = on_board(rt.alloc(), design, history, record)? {
                print_board(rt, history, design)?;
                print_fault(rt, fault)?;
                println!(rt; "a board and the graph search differ")?;
                bail!("a board and the graph search differ");
            }
        }
    }
    Ok(())
}

// The number of an argument, if it is given.
fn number(word: Option<String>, otherwise: u64) -> anyhow::Result<u64> {
    match word {
        Some(word) => Ok(word.as_str().parse::<u64>()?),
        None => Ok(otherwise),
    }
}

// The arguments: how many calls, and the seed.
fn arguments(rt: &HostRuntime) -> anyhow::Result<(u64, u64)> {
    let mut args = env::args(rt)?;
    let _ = args.next();
    Ok((number(args.next(), STEPS)?, number(args.next(), SEED)?))
}

// Prints what was done.
fn print_counts(rt: &HostRuntime, record: &Record) -> io::Result<()> {
    let boards = record.boards;
    println!(rt; "boards {boards}")?;
    record.tally.print_calls(rt)?;
    record.tally.print_rounds(rt)?;
    println!(rt; "nothing differed")
}

// The same history for a table that can fill a quarter of its cells.
fn scant(history: History) -> History {
    let mut scant = history;
    scant.limits.cells = history.limits.cells / 4;
    scant
}

fn run(rt: &HostRuntime) -> anyhow::Result<()> {
    let (steps, seed) = arguments(rt)?;
    let mut record = Record::new(rt.alloc());
    for (shuttles, moves, waits) in SHAPES {
        let whole = History {
            limits: Limits::whole(shuttles, moves, waits),
            seed,
            steps: steps as usize,
        };
        on_all(rt, whole, &WHOLE, &mut record)?;
        on_all(rt, scant(whole), &SCANT, &mut record)?;
    }
    print_counts(rt, &record)?;
    Ok(())
}

fn main(rt: HostRuntime) -> anyhow::Result<()> {
    run(&rt)
}
