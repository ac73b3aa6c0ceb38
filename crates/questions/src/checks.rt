// Whether the numbers of a call are taken: a move's shuttle is checked before its place, and the first move before the second.
ghost use Rattle.std.specs.Prelude.{◌≡◌};
ghost use Rattle.questions.specs.Checks.{move_check, moves_check, wait_check, question_check};

use words::Refusal;
use words::aisles::Aisle;
use words::moves::Code;

// Whether u is a move.
#[tactic(auto, unfolding(crate::specs::Checks::move_check))]
pub fn check_move(aisle: Aisle, u: u16) -> Result<(), Refusal>
    ensures { result ≡ move_check aisle.shuttles aisle.moves u }
{
    if Code(u).shuttle() >= aisle.shuttles {
        Err(Refusal::NoSuchShuttle)
    } else if Code(u).place() >= aisle.moves {
        Err(Refusal::NoSuchPlace)
    } else {
        Ok(())
    }
}

// Whether u and v are moves.
pub fn check_moves(aisle: Aisle, u: u16, v: u16) -> Result<(), Refusal>
    ensures { result ≡ moves_check aisle.shuttles aisle.moves u v }
{
    check_move(aisle, u)?;
    check_move(aisle, v)
}

// Whether u and v are moves on different shuttles.
pub fn check_wait(aisle: Aisle, u: u16, v: u16) -> Result<(), Refusal>
    ensures { result ≡ wait_check aisle.shuttles aisle.moves u v }
{
    check_moves(aisle, u, v)?;
    if Code(u).shuttle() == Code(v).shuttle() {
        Err(Refusal::SameShuttle)
    } else {
        Ok(())
    }
}

// Whether u is a move, and t a shuttle.
pub fn check_question(aisle: Aisle, u: u16, t: u16) -> Result<(), Refusal>
    ensures { result ≡ question_check aisle.shuttles aisle.moves u t }
{
    check_move(aisle, u)?;
    if t >= aisle.shuttles {
        Err(Refusal::NoSuchShuttle)
    } else {
        Ok(())
    }
}
