// Running orders, written into a slice.
ghost use Rattle.std.specs.Prelude.{◌≡◌};
ghost use Rattle.running.specs.Calls.{ListedSo, PushedSo};
ghost use Rattle.running.specs.Progress.{Filled, Counts, Reach, count_of};

use crate::ready::next;
use questions::asking::nearest;
use questions::checks::check_move;
use questions::rounds::Way;
use tables::table::Table;
use words::Refusal;
use words::moves::Code;

// Writes all moves, each time the lowest shuttle's that may come now, within the bounds first.
fn fill<T: Table>(table: &T, bounds: &[u16; 16], out: &mut [u16]) -> Result<usize, Refusal>
    ensures { Filled (T.Table.meaning table.now) bounds.now out.old out.new result }
{
    let aisle = table.sizes().aisle;
    let total = aisle.shuttles as usize * aisle.moves as usize;
    if out.len() < total {
        return Err(Refusal::TooShort);
    }
    let mut done = [0u16; 16];
    // `iter_mut` over the front was tried: the proof speaks of the whole slice, of which that loop knows the front alone, and did not close
    for p in 0..total {
        // there is a next one wherever the waits have a running order; on any other table the place is left
        if let Some(t) = next(table, &done, bounds) {
            out[p] = t * 4096 + done[t as usize];
            done[t as usize] += 1;
        }
    }
    Ok(total)
}

// Writes the running order that takes the lowest shuttle whose next move is ready, each time: with no move within the bounds, all are taken as they come.
#[tactic(auto, using(crate::proofs::Calls::list_of))]
pub fn list<T: Table>(table: &T, out: &mut [u16]) -> Result<usize, Refusal>
    ensures { ListedSo (T.Table.meaning table.now) out.old out.new result }
{
    fill(table, &[0; 16], out)
}

fn count(answer: Result<Option<u16>, Refusal>) -> u16
    ensures { result ≡ count_of answer }
{
    match answer {
        Ok(Some(x)) => Code(x).place() + 1,
        Ok(None) | Err(_) => 0,
    }
}

// How many moves of t are before v, v itself among them.
fn bound<T: Table>(table: &T, v: u16, t: u16) -> u16
    ensures { Counts (T.Table.meaning table.now) v t result }
{
    let (answer, _rounds) = nearest(table, Way::Before, v, t);
    count(answer)
}

fn bounds_of<T: Table>(table: &T, v: u16) -> [u16; 16]
    ensures { Reach (T.Table.meaning table.now) v result }
{
    let mut bounds = [0u16; 16];
    // a shuttle's number is what is asked for, so a loop over the bounds would count it all the same
    for t in 0..table.sizes().aisle.shuttles {
        bounds[t as usize] = bound(table, v, t);
    }
    bounds
}

// Writes the running order that does so with the moves before v first, v among them: the bounds are those of v.
pub fn push<T: Table>(table: &T, v: u16, out: &mut [u16]) -> Result<usize, Refusal>
    ensures { PushedSo (T.Table.meaning table.now) v out.old out.new result }
{
    check_move(table.sizes().aisle, v)?;
    let bounds = bounds_of(table, v);
    fill(table, &bounds, out)
}
