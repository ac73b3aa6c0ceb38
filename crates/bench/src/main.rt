// The benchmark: one random history, played by boards over every table and by the graph search.
// `bench KIND SHUTTLES MOVES STEPS` plays one; `bench` alone plays all kinds at many sizes.
// What was answered and counted goes to standard output, times go to standard error.
#![tactic(auto)]

mod history;
mod players;
mod score;

use anyhow::{Context, anyhow, bail};
use graph::tally::Kind;
use history::Size;
use players::{Game, Who};
use score::Score;
use std::{env, io};
use tables::checks::check_sizes;
use words::kinds::TableKind;

const ALL: [Who; 4] = [
    Who::Board(TableKind::Plain),
    Who::Board(TableKind::Full),
    Who::Board(TableKind::Sparse),
    Who::Graph,
];

// The calls of a history.
const TIMED: [Kind; 6] = [
    Kind::Place,
    Kind::Remove,
    Kind::Before,
    Kind::FirstAfter,
    Kind::LastBefore,
    Kind::List,
];

// The sizes of the whole table: a small aisle, moves that double, and steps that double.
const SIZES: [(u16, u16, u32); 9] = [
    (4, 256, 20000),
    (4, 256, 80000),
    (16, 512, 20000),
    (16, 1024, 20000),
    (16, 2048, 20000),
    (16, 4096, 10000),
    (16, 4096, 20000),
    (16, 4096, 40000),
    (16, 4096, 80000),
];

// Prints the mean times, in nanoseconds.
fn print_times(game: Game<'_>, who: Who, score: &Score) -> io::Result<()> {
    let rt = game.rt;
    let Size { aisle, steps } = game.size;
    let (k, n) = (aisle.shuttles, aisle.moves);
    eprint!(rt; "{who} {k} {n} {steps}:")?;
    for call in TIMED {
        let nanos = score.mean(call as usize);
        eprint!(rt; " {call} {nanos}")?;
    }
    eprintln!(rt; "")
}

// Prints the checksum, the rounds, which the graph search has none of, and the counts.
fn print_counts(rt: &HostRuntime, who: Who, score: &Score) -> io::Result<()> {
    let checksum = score.checksum;
    println!(rt; "checksum {checksum}")?;
    if who != Who::Graph {
        let rounds = score.tally.all_rounds();
        println!(rt; "rounds {rounds}")?;
    }
    score.tally.print_calls(rt)
}

// Lets somebody play and prints what came of it; the checksum.
fn run_one(game: Game<'_>, who: Who) -> anyhow::Result<u32> {
    let score = game.played_by(who)?;
    print_counts(game.rt, who, &score)?;
    print_times(game, who, &score)?;
    Ok(score.checksum)
}

// All kinds at this size; they have to give the same checksum.
fn run_size(game: Game<'_>) -> anyhow::Result<()> {
    let rt = game.rt;
    let Size { aisle, steps } = game.size;
    let (k, n) = (aisle.shuttles, aisle.moves);
    let mut last = None;
    for who in ALL {
        println!(rt; "history {who} {k} {n} {steps}")?;
        let checksum = run_one(game, who)?;
        if let Some(other) = last
            && other != checksum
        {
            bail!("the checksums differ");
        }
        last = Some(checksum);
    }
    Ok(())
}

fn run_all(rt: &HostRuntime) -> anyhow::Result<()> {
    eprintln!(rt; "kind, shuttles, moves, steps: the mean time of each call, in nanoseconds")?;
    for (shuttles, moves, steps) in SIZES {
        let size = Size::new(shuttles, moves, steps);
        run_size(Game { rt, size })?;
    }
    Ok(())
}

// The next word of the arguments.
fn needed(word: Option<String>) -> anyhow::Result<String> {
    word.context("usage: bench, or bench KIND SHUTTLES MOVES STEPS")
}

fn run(rt: &HostRuntime) -> anyhow::Result<()> {
    let mut args = env::args(rt)?;
    let _ = args.next();
    let Some(word) = args.next() else {
        return run_all(rt);
    };
    let Ok(who) = word.as_str().parse::<Who>() else {
        bail!("there is no such kind");
    };
    let shuttles = needed(args.next())?.as_str().parse::<u16>()?;
    let moves = needed(args.next())?.as_str().parse::<u16>()?;
    let steps = needed(args.next())?.as_str().parse::<u32>()?;
    let size = Size::new(shuttles, moves, steps);
    if check_sizes(size.aisle).is_err() {
        bail!("a size is outside its limits");
    }
    run_one(Game { rt, size }, who)?;
    Ok(())
}

fn main(rt: HostRuntime) -> anyhow::Result<()> {
    run(&rt)
}
