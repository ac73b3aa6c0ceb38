// The questions: each answers a pair, its finding and its rounds.
ghost use Rattle.std.specs.Prelude.{◌≡◌, ◌<◌, ◌≤◌};
ghost use Rattle.words.specs.Refusals.{passed};
ghost use Rattle.questions.specs.Checks.{move_check};
ghost use Rattle.questions.specs.Looking.{Under};
ghost use Rattle.questions.specs.Asking.{coded as coded_of, up_to, Finding, Asked, Told};

use crate::checks::{check_moves, check_question};
use crate::rounds::{Way, search};
use tables::table::Table;
use words::Refusal;
use words::moves::Code;

// The code of t's move at the entry's place.
fn coded(t: u16, entry: Option<u16>) -> Option<u16>
    requires { (t < 16) × (Under 4096 entry) }
    ensures { result ≡ coded_of t entry }
{
    entry.map(|p| t * 4096 + p)
}

// What the question finds, for a move and a shuttle of the table.
fn find<T: Table>(table: &T, way: Way, u: u16, t: u16) -> (Option<u16>, u32)
    requires of_move { passed ≡ move_check (T.Table.meaning table.now).shuttles (T.Table.meaning table.now).moves u }
    requires of_shuttle { t < (T.Table.meaning table.now).shuttles }
    ensures { Finding way (T.Table.meaning table.now) u t result.0 result.1 }
{
    let from = Code(u);
    if from.shuttle() == t {
        return (Some(u), 0);
    }
    let k = table.sizes().aisle.shuttles;
    let (entry, rounds) = search(table, way, k, from.shuttle(), from.place(), t);
    (coded(t, entry), rounds)
}

// The nearest move of the shuttle t that has to follow the move u, or that has to come before it.
pub fn nearest<T: Table>(table: &T, way: Way, u: u16, t: u16) -> (Result<Option<u16>, Refusal>, u32)
    ensures { Asked way (T.Table.meaning table.now) u t result.0 result.1 }
{
    let aisle = table.sizes().aisle;
    if let Err(e) = check_question(aisle, u, t) {
        return (Err(e), 0);
    }
    let (found, rounds) = find(table, way, u, t);
    (Ok(found), rounds)
}

fn reaches(found: Option<u16>, v: u16) -> bool
    ensures { result ≡ up_to found v }
{
    found.is_some_and(|x| x <= v)
}

// Whether the move u is before the move v.
pub fn precedes<T: Table>(table: &T, u: u16, v: u16) -> (Result<bool, Refusal>, u32)
    ensures { Told (T.Table.meaning table.now) u v result.0 result.1 }
{
    let aisle = table.sizes().aisle;
    if let Err(e) = check_moves(aisle, u, v) {
        return (Err(e), 0);
    }
    let (found, rounds) = find(table, Way::After, u, Code(v).shuttle());
    (Ok(reaches(found, v)), rounds)
}
