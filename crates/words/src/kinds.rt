// The kinds of tables and of stores that a board can stand on.
ghost use Rattle.std.specs.Prelude.{◌≡◌, Some};
ghost use Rattle.words.specs.Kinds.{table_kind_of, table_word, store_word, TableNamed, StoreNamed};

use crate::Refusal;
use std::fmt;
use std::str::FromStr;

#[derive(Clone, Copy, PartialEq, Eq, Debug)]
pub enum TableKind {
    Plain = 0,
    Full = 1,
    Sparse = 2,
}

// Tables are known by their numbers outside the library.
impl TryFrom<u32> for TableKind {
    type Error = Refusal;

    ghost try_from_gives = { λ n r. r ≡ table_kind_of n };

    fn try_from(number: u32) -> Result<TableKind, Refusal> {
        match number {
            0 => Ok(TableKind::Plain),
            1 => Ok(TableKind::Full),
            2 => Ok(TableKind::Sparse),
            _ => Err(Refusal::NoSuchKind),
        }
    }
}

impl fmt::Display for TableKind {
    ghost output = { λ kind. Some (table_word kind) };

    fn fmt<W: fmt::Write>(&self, f: &mut fmt::Formatter<W>) -> fmt::Result {
        f.write_str(match self {
            TableKind::Plain => "plain",
            TableKind::Full => "full",
            TableKind::Sparse => "sparse",
        })
    }
}

impl FromStr for TableKind {
    type Err = Refusal;

    ghost from_str_gives = { TableNamed };

    fn from_str(word: &str) -> Result<TableKind, Refusal> {
        match word {
            "plain" => Ok(TableKind::Plain),
            "full" => Ok(TableKind::Full),
            "sparse" => Ok(TableKind::Sparse),
            _ => Err(Refusal::NoSuchKind),
        }
    }
}

#[derive(Clone, Copy, PartialEq, Eq, Debug)]
pub enum StoreKind {
    Loose,
    Ordered,
}

impl fmt::Display for StoreKind {
    ghost output = { λ kind. Some (store_word kind) };

    fn fmt<W: fmt::Write>(&self, f: &mut fmt::Formatter<W>) -> fmt::Result {
        f.write_str(match self {
            StoreKind::Loose => "loose",
            StoreKind::Ordered => "ordered",
        })
    }
}

impl FromStr for StoreKind {
    type Err = Refusal;

    ghost from_str_gives = { StoreNamed };

    fn from_str(word: &str) -> Result<StoreKind, Refusal> {
        match word {
            "loose" => Ok(StoreKind::Loose),
            "ordered" => Ok(StoreKind::Ordered),
            _ => Err(Refusal::NoSuchKind),
        }
    }
}
