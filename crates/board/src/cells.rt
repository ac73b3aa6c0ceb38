// Single cells of any table.
ghost use Rattle.std.specs.Prelude.{◌≡◌, ◌<◌, Some};
ghost use Rattle.words.specs.Refusals.{passed, if_done, LeftAlone};
ghost use Rattle.tables.specs.Meaning.{with_cell};
ghost use Rattle.tables.specs.Answers.{taken, room};
ghost use Rattle.order.specs.Rounds.{sooner};
ghost use Rattle.board.specs.Steps.{set_after};

use tables::table::Table;
use words::Refusal;

// The smaller of a cell's value, where it has one, and j.
fn earlier(old: Option<u16>, j: u16) -> u16
    ensures { Some result ≡ sooner old (Some j) }
{
    old.map_or(j, |x| x.min(j))
}

// Lets a cell hold j, unless it holds less.
pub(crate) fn put_earlier<T: Table>(
    table: &mut T,
    s: u16,
    t: u16,
    i: u16,
    j: u16,
) -> Result<(), Refusal>
    requires cell { passed ≡ taken (T.Table.meaning table.old) s t i }
    requires value { j < (T.Table.meaning table.old).moves }
    ensures answer { result ≡ room (T.Table.meaning table.old) ((T.Table.meaning table.old).cell s t i) }
    ensures after { T.Table.meaning table.new ≡ if_done result (T.Table.meaning table.old) (with_cell (T.Table.meaning table.old) s t i (sooner ((T.Table.meaning table.old).cell s t i) (Some j))) }
    ensures refused { LeftAlone result table.old table.new }
{
    let old = table.cell(s, t, i)?;
    table.put(s, t, i, earlier(old, j))
}

// Lets a cell hold this value, or nothing.
pub(crate) fn set_cell<T: Table>(table: &mut T, s: u16, t: u16, i: u16, value: Option<u16>)
    ensures { T.Table.meaning table.new ≡ set_after (T.Table.meaning table.old) s t i value }
{
    let _ = match value {
        Some(j) => table.put(s, t, i, j),
        None => table.clear(s, t, i),
    };
}
