// Whether a move may come next, after so many moves of each shuttle.
ghost use Rattle.std.specs.Prelude.{◌≡◌, ℕ, ◌/◌, ◌%◌, ◌<◌, Decides};
ghost use Rattle.words.specs.Codes.{move_of};
ghost use Rattle.running.specs.Calls.{last_look};
ghost use Rattle.running.specs.Progress.{Past, Goes, Follows, Offers, Picks, Nexts};

use tables::table::Table;
use words::moves::Code;

fn past(o: Option<u16>, m: u16) -> bool
    ensures { Decides result (Past o m) }
{
    o.is_none_or(|p| p < m)
}

// The last place of r with a wait to t's place j or an earlier one; none where the table refuses.
fn last<T: Table>(table: &T, r: u16, t: u16, j: u16) -> Option<u16>
    ensures { result ≡ last_look (T.Table.meaning table.now) r t j }
{
    table.last(r, t, j).unwrap_or(None)
}

// Whether no wait holds back the place j of t. Only direct waits are looked at: what is before those has been listed with them.
fn goes<T: Table>(table: &T, done: &[u16; 16], t: u16, j: u16) -> bool
    ensures { Decides result (Goes (T.Table.meaning table.now) done.now t j) }
{
    (0..table.sizes().aisle.shuttles).all(|r| r == t
        || past(last(table, r, t, j), done[r as usize]))
}

// Whether the move of this code may come next.
pub(crate) fn follows<T: Table>(table: &T, done: &[u16; 16], code: u16) -> bool
    ensures { Decides result (Follows (T.Table.meaning table.now) done.now (move_of code)) }
{
    let aisle = table.sizes().aisle;
    let t = Code(code).shuttle();
    let j = Code(code).place();
    t < aisle.shuttles && j < aisle.moves && j == done[t as usize] && goes(table, done, t, j)
}

// Whether t's next move is within its bound and may come now.
fn offers<T: Table>(table: &T, done: &[u16; 16], bounds: &[u16; 16], t: u16) -> bool
    requires { t < (T.Table.meaning table.now).shuttles }
    ensures { Decides result (Offers (T.Table.meaning table.now) done.now bounds.now t) }
{
    let j = done[t as usize];
    j < bounds[t as usize] && j < table.sizes().aisle.moves && goes(table, done, t, j)
}

// The lowest shuttle whose next move is within the bounds and may come now.
fn pick<T: Table>(table: &T, done: &[u16; 16], bounds: &[u16; 16]) -> Option<u16>
    ensures { Picks (T.Table.meaning table.now) done.now bounds.now result }
{
    // `find` over the range was tried: the proof that none below it offers one did not close
    for t in 0..table.sizes().aisle.shuttles {
        if offers(table, done, bounds, t) {
            return Some(t);
        }
    }
    None
}

// The shuttle to take: one within the bounds where there is one, or else any.
pub(crate) fn next<T: Table>(table: &T, done: &[u16; 16], bounds: &[u16; 16]) -> Option<u16>
    ensures { Nexts (T.Table.meaning table.now) done.now bounds.now result }
{
    // `or_else` was tried: the proof did not close
    match pick(table, done, bounds) {
        Some(t) => Some(t),
        None => pick(table, done, &[4096; 16]),
    }
}
