// A line of text as a command. Words stand between blanks; more blanks than one, or blanks around a line, mean nothing.
use commands::values::{BEYOND, Command, Move, Request, Setup, Task, Wrong};
use std::alloc::Global;
use std::str::FromStr;

// Ends of lines are blanks too, as some editors write two bytes for one.
fn is_blank(byte: u8) -> bool {
    matches!(byte, b' ' | b'\t' | b'\r' | b'\n')
}

// A number in digits, of which there is at least one.
fn read_digits(word: &[u8]) -> Option<u32> {
    if word.is_empty() {
        return None;
    }
    let mut number = 0u32;
    for byte in word {
        let digit = char::from(*byte).to_digit(10)?;
        number = number.saturating_mul(10).saturating_add(digit).min(BEYOND);
    }
    Some(number)
}

fn read_number(word: &[u8]) -> Result<u32, Wrong> {
    read_digits(word).ok_or(Wrong::Number)
}

fn read_move(word: &[u8]) -> Result<Move, Wrong> {
    let dot = word.iter().position(|b| *b == b'.').ok_or(Wrong::Move)?;
    let shuttle = read_digits(&word[..dot]).ok_or(Wrong::Move)?;
    let place = read_digits(&word[dot + 1..]).ok_or(Wrong::Move)?;
    Ok(Move { shuttle, place })
}

// The kind that the word names.
fn read_kind<K: FromStr>(word: &[u8], wrong: Wrong) -> Result<K, Wrong>
where
    K::Err: Drop,
{
    let text = std::str::from_utf8(word).map_err(|_| wrong)?;
    text.parse().map_err(|_| wrong)
}

// What is wrong where a command has so many words, and needs another number of them.
fn miscounted(words: &[&[u8]], needed: usize) -> Wrong {
    if words.len() < needed {
        Wrong::Missing
    } else {
        Wrong::Surplus
    }
}

fn read_setup(words: &[&[u8]]) -> Result<Setup, Wrong> {
    let [shuttles, moves, table, store] = words else {
        return Err(miscounted(words, 4));
    };
    Ok(Setup {
        shuttles: read_number(shuttles)?,
        moves: read_number(moves)?,
        table: read_kind(table, Wrong::Table)?,
        store: read_kind(store, Wrong::Store)?,
    })
}

fn read_cell(words: &[&[u8]]) -> Result<Task, Wrong> {
    let [from, to, place] = words else {
        return Err(miscounted(words, 3));
    };
    Ok(Task::Cell(read_number(from)?, read_number(to)?, read_number(place)?))
}

fn read_one_move(words: &[&[u8]]) -> Result<Move, Wrong> {
    let [u] = words else {
        return Err(miscounted(words, 1));
    };
    read_move(u)
}

fn read_two_moves(words: &[&[u8]]) -> Result<(Move, Move), Wrong> {
    let [u, v] = words else {
        return Err(miscounted(words, 2));
    };
    Ok((read_move(u)?, read_move(v)?))
}

fn read_question(words: &[&[u8]]) -> Result<(Move, u32), Wrong> {
    let [from, shuttle] = words else {
        return Err(miscounted(words, 2));
    };
    Ok((read_move(from)?, read_number(shuttle)?))
}

fn read_request(name: &[u8], words: &[&[u8]]) -> Result<Request, Wrong> {
    match name {
        b"place" => {
            let (u, v) = read_two_moves(words)?;
            Ok(Request::Place(u, v))
        }
        b"remove" => {
            let (u, v) = read_two_moves(words)?;
            Ok(Request::Remove(u, v))
        }
        b"before" => {
            let (u, v) = read_two_moves(words)?;
            Ok(Request::Before(u, v))
        }
        b"first-after" => {
            let (u, t) = read_question(words)?;
            Ok(Request::FirstAfter(u, t))
        }
        b"last-before" => {
            let (u, t) = read_question(words)?;
            Ok(Request::LastBefore(u, t))
        }
        b"list" if words.is_empty() => Ok(Request::List),
        b"list" => Err(Wrong::Surplus),
        b"push" => Ok(Request::Push(read_one_move(words)?)),
        _ => Err(Wrong::Command),
    }
}

// A command but a test.
fn read_command(name: &[u8], words: &[&[u8]]) -> Result<Command, Wrong> {
    match name {
        b"board" => Ok(Command::Board(read_setup(words)?)),
        b"cell" => Ok(Command::Task(read_cell(words)?)),
        _ => Ok(Command::Task(Task::Call(read_request(name, words)?))),
    }
}

// The command of a line; none where it is blank or a remark.
// The words are taken one by one, and none is kept but as a move of a test, of which there can be any number: a long line needs no more room than it has to.
pub fn read_line(heap: Global, line: &[u8]) -> Result<Option<Command>, Wrong> {
    // a line without words is left after one look at each byte, as it is not cut into words
    let Some(start) = line.iter().position(|b| !is_blank(*b)) else {
        return Ok(None);
    };
    let mut words = line[start..]
        .split(|b| is_blank(*b))
        .filter(|word| !word.is_empty());
    match words.next() {
        None | Some([b'#', ..]) => Ok(None),
        Some(b"test") => {
            let mut moves = Vec::new(heap);
            for word in words {
                moves.push(read_move(word)?)?;
            }
            Ok(Some(Command::Task(Task::Test(moves))))
        }
        Some(name) => {
            // no other command has more than four words behind its name, and a fifth is one too many
            let few: [&[u8]; 5] = [
                words.next().unwrap_or(b""),
                words.next().unwrap_or(b""),
                words.next().unwrap_or(b""),
                words.next().unwrap_or(b""),
                words.next().unwrap_or(b""),
            ];
            let count = few.iter().position(|word| word.is_empty());
            Ok(Some(read_command(name, &few[..count.unwrap_or(5)])?))
        }
    }
}
