// The call of the planning station.
ghost use Rattle.std.specs.Prelude.{◌≡◌, ◌+◌, ◌*◌, ◌<◌, ◌≤◌, true, length, IfOk};
ghost use Rattle.words.specs.Refusals.{then};
ghost use Rattle.board.specs.Standing.{limits};
ghost use Rattle.station.specs.Edit.{well_formed, count_of, step_at, kind_check, form_check, header_told};
ghost use Rattle.station.specs.Station.{Reported, Reports, KindsAlike, Station, ReportsAlike, StepTaken, Taken, Made, MadeWhere, empty_table};

use crate::edit::{Header, ask_at, check_file};
use crate::text::Page;
use board::board::Board;
use fulltree::full::FullTree;
use runs::calls::Outcome;
use runs::steps::step;
use stores::loose::Loose;
use stores::store::Store;
use stores::wait::Wait;
use tables::plain::Plain;
use tables::table::Table;
use words::Refusal;
use words::kinds::TableKind;

// Makes the call of one step; a step whose kind is not known is refused alone.
#[tactic(auto, using(crate::proofs::Reporting::step_taken))]
fn take_step<T: Table, S: Store>(board: &mut Board<T, S>, file: &[u8], i: usize) -> Outcome
    requires { (13 + 6 * i < length file.now) × (i < 65536) }
    ensures { StepTaken (T.Table.meaning board.old.table) (S.Store.holding board.old.store) (step_at file.now i) result (T.Table.meaning board.new.table) (S.Store.holding board.new.store) }
{
    match ask_at(file, i) {
        Some(ask) => step(board, ask, &mut []),
        None => Err(Refusal::BadForm),
    }
}

// Carries out the steps of a file on a board made there, and writes their report.
fn write_report<T: Table + Drop, S: Store + Drop>(
    table: T,
    store: S,
    header: Header,
    file: &[u8],
    report: &mut [u8],
) -> usize
    requires told { header ≡ header_told file.now }
    requires formed { well_formed file.now ≡ true }
    requires room { 24 * (count_of file.now + 1) ≤ length report.old }
    ensures reported { Reported (limits (T.Table.meaning table) (S.Store.holding store)) file.now report.old report.new result }
    ensures short { result ≤ 24 * (count_of file.now + 1) }
{
    let mut board = Board::make(table, store);
    let mut page = Page::over(report);
    page.put_first_line(header);
    // by number, which a step's line tells and by which the definitions know it; pieces of the file would be no plainer
    for i in 0..header.steps {
        let outcome = take_step(&mut board, file, i as usize);
        page.put_line(i as u32 + 1, outcome);
    }
    page.end
}

// The numbers of the largest plain table that the station takes: 4 shuttles, 256 moves.
const PLAIN: usize = 4096;

// The numbers of the largest full tree.
const FULL: usize = 8192;

// The waits that the station holds at most.
const WAITS: usize = 1024;

// What a refusal is marked with: the returned number is this one plus the refusal's.
const REFUSED: u32 = 2147483648;

// The report on a file that is taken, over an empty table of its sizes.
#[tactic(auto, using(crate::proofs::Taken::made_over))]
fn report_over<T: Table + Drop>(table: T, header: Header, file: &[u8], report: &mut [u8]) -> usize
    requires told { header ≡ header_told file.now }
    requires taken { Taken file.now (length report.old) }
    requires empty { T.Table.meaning table ≡ empty_table file.now }
    ensures { Made file.now report.old report.new result }
{
    let mut records = [Wait {
        first: 0,
        second: 0,
    }; WAITS];
    write_report(table, Loose::make(&mut records), header, file, report)
}

// The checks and the report over a plain table. It has a function of its own, as the full tree has, so that one call's stack need not hold the numbers of both.
#[tactic(auto, using(crate::proofs::Taken::plain_empty, crate::proofs::Taken::header_takes, crate::proofs::Taken::header_is))]
fn plain_report(file: &[u8], report: &mut [u8]) -> Result<usize, Refusal>
    ensures { MadeWhere (form_check file.now (length report.old)) file.now report.old report.new result }
{
    let header = check_file(file, report.len())?;
    let mut cells = [0u16; PLAIN];
    let table = Plain::make(header.aisle, &mut cells);
    Ok(report_over(table, header, file, report))
}

// The same over a full tree.
#[tactic(auto, using(crate::proofs::Taken::full_empty, crate::proofs::Taken::header_takes, crate::proofs::Taken::header_is))]
fn full_report(file: &[u8], report: &mut [u8]) -> Result<usize, Refusal>
    ensures { MadeWhere (form_check file.now (length report.old)) file.now report.old report.new result }
{
    let header = check_file(file, report.len())?;
    let mut cells = [0u16; FULL];
    let table = FullTree::make(header.aisle, &mut cells);
    Ok(report_over(table, header, file, report))
}

// The same over a table of this kind.
fn report_by(kind: TableKind, file: &[u8], report: &mut [u8]) -> Result<usize, Refusal>
    ensures { MadeWhere (then (kind_check kind) (form_check file.now (length report.old))) file.now report.old report.new result }
{
    match kind {
        TableKind::Plain => plain_report(file, report),
        TableKind::Full => full_report(file, report),
        TableKind::Sparse => Err(Refusal::NoSuchKind),
    }
}

// Reports on an edit file: the report's length, or why it is refused, which leaves every byte of the buffer as it was.
// It takes the kind's number and not a `TableKind`, which would ask more of its callers: a number that is no kind is refused here.
#[tactic(auto, using(crate::proofs::Taken::kind_known, crate::proofs::Taken::reports_by, crate::proofs::Taken::report_fits, crate::proofs::Alike::kinds_alike))]
pub fn report(kind: u32, file: &[u8], report: &mut [u8]) -> Result<usize, Refusal>
    ensures answers { Reports kind file.now report.old report.new result }
    ensures alike { KindsAlike kind file.now report.old report.new result }
    ensures fits { IfOk result (λ r. r ≤ length report.new) }
{
    report_by(TableKind::try_from(kind)?, file, report)
}

// The same for callers outside the library: the report's length, or 2,147,483,648 plus the refusal.
#[tactic(auto, using(crate::proofs::Taken::report_small, crate::proofs::Taken::station_made, crate::proofs::Taken::station_refused, crate::proofs::Alike::reports_alike))]
pub fn soguapy_report(kind: u32, file: &[u8], report: &mut [u8]) -> u32
    ensures answers { Station kind file.now report.old report.new result }
    ensures alike { ReportsAlike kind file.now report.old report.new result }
{
    match self::report(kind, file, report) {
        Ok(length) => length as u32,
        Err(refusal) => REFUSED + refusal.number() as u32,
    }
}
