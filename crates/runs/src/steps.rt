// One call on a board.
ghost use Rattle.runs.specs.Law.{StepKeeps};

use crate::calls::{Answer, Ask, Outcome};
use board::board::Board;
use stores::store::Store;
use tables::table::Table;

// Makes the call on the board. A call that writes does so to the slice.
#[tactic(auto, using(crate::proofs::Stepping::step_place, crate::proofs::Stepping::step_remove, crate::proofs::Stepping::step_before, crate::proofs::Stepping::step_first, crate::proofs::Stepping::step_last, crate::proofs::Stepping::step_list, crate::proofs::Stepping::step_push, crate::proofs::Stepping::step_test))]
pub fn step<T: Table, S: Store>(board: &mut Board<T, S>, ask: Ask, slice: &mut [u16]) -> Outcome
    ensures { StepKeeps (T.Table.meaning board.old.table) (S.Store.holding board.old.store) ask slice.old result slice.new (T.Table.meaning board.new.table) (S.Store.holding board.new.store) }
{
    match ask {
        Ask::Place(u, v) => {
            board.place(u, v)?;
            Ok(Answer::Done)
        }
        Ask::Remove(u, v) => {
            board.remove(u, v)?;
            Ok(Answer::Done)
        }
        Ask::Before(u, v) => {
            let (truth, rounds) = board.before(u, v);
            Ok(Answer::Truth(truth?, rounds))
        }
        Ask::FirstAfter(u, t) => {
            let (found, rounds) = board.first_after(u, t);
            Ok(Answer::Found(found?, rounds))
        }
        Ask::LastBefore(u, t) => {
            let (found, rounds) = board.last_before(u, t);
            Ok(Answer::Found(found?, rounds))
        }
        Ask::List => Ok(Answer::Listed(board.list(slice)?)),
        Ask::Push(v) => Ok(Answer::Listed(board.push(v, slice)?)),
        Ask::Test => Ok(Answer::Tested(board.test(slice))),
    }
}
