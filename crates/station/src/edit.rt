// The edit file: its checks, and its steps as calls.
ghost use Rattle.std.specs.Prelude.{◌≡◌, ◌+◌, ◌*◌, ◌<◌, ◌≤◌, length};
ghost use Rattle.station.specs.Edit.{number_at, well_formed, sizes_within, header_taken, step_of, step_at, header_of, step_told};

use runs::calls::Ask;
use words::Refusal;
use words::aisles::Aisle;

// The 16-bit number at a byte's place, high byte first.
fn number(file: &[u8], at: usize) -> u16
    requires { at + 1 < length file.now }
    ensures { result ≡ number_at file.now at }
{
    u16::from_be_bytes([file[at], file[at + 1]])
}

#[tactic(auto, using(std::proofs::lemmas::Bool::Decides::nat_tests), unfolding(crate::specs::Edit::well_formed))]
fn is_well_formed(file: &[u8]) -> bool
    ensures { result ≡ well_formed file.now }
{
    if !(8..=16384).contains(&file.len()) {
        return false;
    }
    file.len() == 8 + 6 * number(file, 4) as usize && number(file, 6) == 8
}

// What the header of an edit file says.
#[derive(Clone, Copy, PartialEq, Eq, Debug)]
pub struct Header {
    pub aisle: Aisle,
    pub steps: u16,
}

impl Header {
    fn has_sizes(self) -> bool
        ensures { result ≡ sizes_within self.aisle.shuttles self.aisle.moves }
    {
        (1..=4).contains(&self.aisle.shuttles) && (1..=256).contains(&self.aisle.moves)
    }
}

// The header of the file; none where it is badly formed.
#[tactic(auto, using(crate::proofs::Files::some_bytes))]
pub fn read_header(file: &[u8]) -> Option<Header>
    ensures { result ≡ header_of file.now }
{
    if !is_well_formed(file) {
        return None;
    }
    Some(Header {
        aisle: Aisle::new(number(file, 0), number(file, 2)),
        steps: number(file, 4),
    })
}

// The header of a file that is taken, where the buffer has room for its report.
#[tactic(auto, using(crate::proofs::Files::refused_sizes, crate::proofs::Files::refused_room, crate::proofs::Files::header_goes))]
pub(crate) fn check_file(file: &[u8], room: usize) -> Result<Header, Refusal>
    ensures { result ≡ header_taken file.now room }
{
    let header = read_header(file).ok_or(Refusal::BadForm)?;
    if !header.has_sizes() {
        return Err(Refusal::BadSize);
    }
    if room < 24 * (header.steps as usize + 1) {
        return Err(Refusal::TooShort);
    }
    Ok(header)
}

fn ask_of(kind: u16, x: u16, y: u16) -> Option<Ask>
    ensures { result ≡ step_of kind x y }
{
    match kind {
        1 => Some(Ask::Place(x, y)),
        2 => Some(Ask::Remove(x, y)),
        3 => Some(Ask::Before(x, y)),
        4 => Some(Ask::FirstAfter(x, y)),
        5 => Some(Ask::LastBefore(x, y)),
        _ => None,
    }
}

// The step number i of the file as a call, if its kind is known.
pub(crate) fn ask_at(file: &[u8], i: usize) -> Option<Ask>
    requires { (13 + 6 * i < length file.now) × (i < 65536) }
    ensures { result ≡ step_at file.now i }
{
    let at = 8 + 6 * i;
    ask_of(number(file, at), number(file, at + 2), number(file, at + 4))
}

// The step number i of the file as a call; none where the file ends before it, or its kind is not known.
pub fn read_step(file: &[u8], i: u16) -> Option<Ask>
    ensures { result ≡ step_told file.now i }
{
    let i = i as usize;
    if 13 + 6 * i < file.len() {
        ask_at(file, i)
    } else {
        None
    }
}
