// The words that every layer shares: why a call is refused, moves and their codes, how large an aisle is, and the kinds of tables and stores.
#![tactic(auto)]

ghost use Rattle.std.specs.Prelude.{◌≡◌, Some};
ghost use Rattle.words.specs.Refusals.{number_of, numbered};
ghost use Rattle.words.specs.Texts.{reason};

use std::error::Error;
use std::fmt;

pub mod aisles;
pub mod kinds;
pub mod moves;

// Why a call is refused. Its number is what a caller outside the library sees.
#[derive(Clone, Copy, PartialEq, Eq, Debug)]
pub enum Refusal {
    NoSuchShuttle = 1,
    NoSuchPlace = 2,
    SameShuttle = 3,
    AlreadyHeld = 4,
    NotHeld = 5,
    Circle = 6,
    StoreFull = 7,
    TableFull = 8,
    TooShort = 9,
    BadForm = 10,
    BadSize = 11,
    NoSuchKind = 12,
}

impl Refusal {
    // The number that the refusal is returned as.
    pub fn number(self) -> u16
        ensures value { result ≡ number_of self }
        ensures back { numbered result ≡ self }
    {
        self as u16
    }
}

impl fmt::Display for Refusal {
    ghost output = { λ e. Some (reason e) };

    fn fmt<W: fmt::Write>(&self, f: &mut fmt::Formatter<W>) -> fmt::Result {
        f.write_str(match self {
            Refusal::NoSuchShuttle => "a shuttle is not below k",
            Refusal::NoSuchPlace => "a place is not below n",
            Refusal::SameShuttle => "both shuttles are the same",
            Refusal::AlreadyHeld => "the wait is already held",
            Refusal::NotHeld => "the wait is not held",
            Refusal::Circle => "circle: the second move is before the first",
            Refusal::StoreFull => "the store is full",
            Refusal::TableFull => "the table's cell is empty and the table is full",
            Refusal::TooShort => "a slice or a buffer is too short",
            Refusal::BadForm => "the file or a step is badly formed",
            Refusal::BadSize => "a size is outside its limits",
            Refusal::NoSuchKind => "there is no such table kind",
        })
    }
}

impl Error for Refusal {}
