// Whether a list of codes is a running order.
ghost use Rattle.running.specs.Calls.{TestsSo};

use crate::ready::follows;
use tables::table::Table;
use words::moves::Code;

// Each move has to be ready after those that stand earlier. The length is compared first, so that none can be missing.
pub fn test<T: Table>(table: &T, codes: &[u16]) -> bool
    ensures { TestsSo (T.Table.meaning table.now) codes.now result }
{
    let aisle = table.sizes().aisle;
    if codes.len() != aisle.shuttles as usize * aisle.moves as usize {
        return false;
    }
    let mut done = [0u16; 16];
    for code in codes {
        if !follows(table, &done, *code) {
            return false;
        }
        let next = Code(*code);
        done[next.shuttle() as usize] = next.place() + 1;
    }
    true
}
