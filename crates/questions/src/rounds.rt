// Rounds over a row with one entry for each shuttle: none, or the nearest place that is known so far.
ghost use Rattle.std.specs.Prelude.{◌≡◌, ◌<◌, ◌≤◌, length, Decides};
ghost use Rattle.order.specs.Rounds.{via, relaxed, Begins, Ran};
ghost use Rattle.questions.specs.Looking.{look_of, pick_of, Under, Places, ComesTo};

use tables::table::Table;

// The two ways to ask: for what has to follow a move, and for what has to come before it.
#[derive(Clone, Copy, PartialEq, Eq, Debug)]
pub enum Way {
    After,
    Before,
}

// The entry that is kept of two: the earlier one after a move, the later one before it.
fn nearer(way: Way, a: Option<u16>, b: Option<u16>) -> Option<u16>
    ensures { result ≡ pick_of way a b }
{
    match (a, b) {
        (Some(x), Some(y)) => match way {
            Way::After => Some(x.min(y)),
            Way::Before => Some(x.max(y)),
        },
        _ => a.or(b),
    }
}

// Where waits lead to on the shuttle q from the place p of r, or come from; none where the table refuses.
// The table and the way go with each function from here on: a struct of the two is no plainer, since each contract speaks of the table's meaning and of the way by themselves.
fn look<T: Table>(table: &T, way: Way, r: u16, q: u16, p: u16) -> Option<u16>
    ensures { result ≡ look_of way (T.Table.meaning table.now) r q p }
{
    let answer = match way {
        Way::After => table.least(r, q, p),
        Way::Before => table.last(q, r, p),
    };
    answer.unwrap_or(None)
}

// The same from an entry of r.
fn led<T: Table>(table: &T, way: Way, r: u16, q: u16, from: Option<u16>) -> Option<u16>
    ensures { result ≡ via (look_of way (T.Table.meaning table.now) r q) from }
{
    from.and_then(|p| look(table, way, r, q, p))
}

// Looks at r's entry for q's.
fn relax<T: Table>(table: &T, way: Way, row: &mut [Option<u16>; 16], q: u16, r: u16)
    requires { (q < 16) × (r < 16) }
    ensures { row.new ≡ relaxed (pick_of way) (look_of way (T.Table.meaning table.now)) row.old q r }
{
    let other = led(table, way, r, q, row[r as usize]);
    row[q as usize] = nearer(way, row[q as usize], other);
}

// Whether two rows hold the same entries.
fn unchanged(a: &[Option<u16>; 16], b: &[Option<u16>; 16]) -> bool
    ensures { Decides result (a.now ≡ b.now) }
{
    a == b
}

// The row to start from: the entry of s is i, and each other shuttle has what is looked up from there.
fn begin<T: Table>(table: &T, way: Way, k: u16, s: u16, i: u16) -> [Option<u16>; 16]
    requires few { k ≤ 16 }
    requires place { i < (T.Table.meaning table.now).moves }
    ensures begins { Begins (look_of way (T.Table.meaning table.now)) k s i result }
    ensures places { Places (T.Table.meaning table.now).moves result }
{
    let mut row: [Option<u16>; 16] = [None; 16];
    // a shuttle's number is what is looked up, so a loop over the entries would count it all the same
    for r in 0..k {
        row[r as usize] = if r == s {
            Some(i)
        } else {
            look(table, way, s, r, i)
        };
    }
    row
}

// Runs rounds until one of them changes no entry: the last row, and how many rounds were run.
fn settle<T: Table>(
    table: &T,
    way: Way,
    k: u16,
    s: u16,
    first: [Option<u16>; 16],
) -> ([Option<u16>; 16], u32)
    requires few { k ≤ 16 }
    requires places { Places (T.Table.meaning table.now).moves first }
    ensures comes { ComesTo (pick_of way) (look_of way (T.Table.meaning table.now)) k s first result.0 result.1 }
    ensures places { Places (T.Table.meaning table.now).moves result.0 }
{
    let mut row = first;
    let mut rounds: u32 = 0;
    'rounds: loop {
        let old = row;
        // the rule takes shuttles by their numbers, and relaxing one entry reads another
        for q in 0..k {
            if q != s {
                for r in 0..k {
                    if r != q {
                        relax(table, way, &mut row, q, r);
                    }
                }
            }
        }
        rounds += 1;
        if unchanged(&row, &old) {
            break 'rounds (row, rounds);
        }
    }
}

// What the question of s.i finds on the shuttle t, and the rounds that it takes.
pub(crate) fn search<T: Table>(
    table: &T,
    way: Way,
    k: u16,
    s: u16,
    i: u16,
    t: u16,
) -> (Option<u16>, u32)
    requires few { k ≤ 16 }
    requires place { i < (T.Table.meaning table.now).moves }
    requires onto { t < k }
    ensures ran { Ran (pick_of way) (look_of way (T.Table.meaning table.now)) k s i t result.0 result.1 }
    ensures below { Under (T.Table.meaning table.now).moves result.0 }
{
    let (row, rounds) = settle(table, way, k, s, begin(table, way, k, s, i));
    (row[t as usize], rounds)
}
