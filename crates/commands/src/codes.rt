// Written moves as codes, and written calls as calls of the board.
ghost use Rattle.std.specs.Prelude.{◌≡◌, Ok, map, Any, IsErr, IfOk, IfSome, IfNone};
ghost use Rattle.commands.specs.Calls.{coded, AsBoard, narrow, asked};

use crate::values::{Move, Request, Setup};
use runs::calls::Ask;
use std::alloc::{AllocError, Global};
use words::Refusal;
use words::aisles::Aisle;

// No board has more shuttles, or more moves of one.
pub const LARGEST: Aisle = Aisle {
    shuttles: 16,
    moves: 4096,
};

// The code of a move of an aisle. A move that is not there is refused as a board of this size refuses it, whether it has a code or not.
pub fn code_of(aisle: Aisle, it: Move) -> Result<u16, Refusal>
    ensures value { result ≡ coded aisle.shuttles aisle.moves it }
    ensures alike { AsBoard aisle.shuttles aisle.moves it result }
{
    if it.shuttle >= u32::from(aisle.shuttles.min(LARGEST.shuttles)) {
        return Err(Refusal::NoSuchShuttle);
    }
    if it.place >= u32::from(aisle.moves.min(LARGEST.moves)) {
        return Err(Refusal::NoSuchPlace);
    }
    Ok((it.shuttle * 4096 + it.place) as u16)
}

// A number as 16 bits. One that is higher becomes 65,535, which no board has.
pub fn narrowed(number: u32) -> u16
    ensures { result ≡ narrow number }
{
    u16::try_from(number).unwrap_or(u16::MAX)
}

impl Setup {
    // How large an aisle is asked for.
    pub fn aisle(self) -> Aisle
        ensures shuttles { result.shuttles ≡ narrow self.shuttles }
        ensures moves { result.moves ≡ narrow self.moves }
    {
        Aisle::new(narrowed(self.shuttles), narrowed(self.moves))
    }
}

// The written call as a call of a board of this size, or why that refuses it.
pub fn ask_of(aisle: Aisle, request: Request) -> Result<Ask, Refusal>
    ensures { result ≡ asked aisle.shuttles aisle.moves request }
{
    match request {
        Request::Place(a, b) => Ok(Ask::Place(code_of(aisle, a)?, code_of(aisle, b)?)),
        Request::Remove(a, b) => Ok(Ask::Remove(code_of(aisle, a)?, code_of(aisle, b)?)),
        Request::Before(a, b) => Ok(Ask::Before(code_of(aisle, a)?, code_of(aisle, b)?)),
        Request::FirstAfter(a, t) => Ok(Ask::FirstAfter(code_of(aisle, a)?, narrowed(t))),
        Request::LastBefore(a, t) => Ok(Ask::LastBefore(code_of(aisle, a)?, narrowed(t))),
        Request::List => Ok(Ask::List),
        Request::Push(a) => Ok(Ask::Push(code_of(aisle, a)?)),
    }
}

// The codes of the moves; none where one of them has no code.
pub fn codes_of(heap: Global, moves: &[Move]) -> Result<Option<Vec<u16>>, AllocError>
    ensures found { IfOk result (λ o. IfSome o (λ v. map Ok v.items ≡ map (coded 16 4096) moves.now)) }
    ensures missing { IfOk result (λ o. IfNone o (Any (λ m. IsErr (coded 16 4096 m)) moves.now)) }
{
    let mut codes = Vec::new(heap);
    for it in moves {
        let Ok(code) = code_of(LARGEST, *it) else {
            return Ok(None);
        };
        codes.push(code)?;
    }
    Ok(Some(codes))
}
