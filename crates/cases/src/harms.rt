// One change to a state, mostly one that breaks a clause of "well shaped" and no other.

ghost use Rattle.std.specs.Prelude.{◌<◌};

use table::{Epoch, NODES, ROWS, State};

// The place whose name `Almost` copies.
const FIRST_PLACE: usize = 1;

// What is changed, by two numbers, `at` and `to`. Past the end of a table, a set or an array its places start over.
// The two are the script's, and mean another thing to each change.
#[derive(Clone, Copy)]
pub enum Harm {
    // Field `at` of those beside table and clocks is `to`.
    Field,
    // The clock kept from `to` is another.
    Clock,
    // The name at `at` is the one at `to`; all zero where that is 0.
    Name,
    // The name at `at` is the one at place 1 but for byte `to`.
    Almost,
    // Byte `to` of the name at `at` is another.
    Turned,
    // Byte `to` of the payload at `at` is another.
    Payload,
    // Voter `to` at `at` is one more, or one less.
    Voter,
    // The block at `at` is on the one at `to`.
    On,
    // The epoch of the block at `at` is `to`.
    Epoch,
}

impl TryFrom<u8> for Harm {
    // The letter of no harm.
    type Error = u8;

    fn try_from(letter: u8) -> Result<Harm, u8> {
        match letter {
            b'F' => Ok(Harm::Field),
            b'C' => Ok(Harm::Clock),
            b'N' => Ok(Harm::Name),
            b'A' => Ok(Harm::Almost),
            b'T' => Ok(Harm::Turned),
            b'P' => Ok(Harm::Payload),
            b'V' => Ok(Harm::Voter),
            b'O' => Ok(Harm::On),
            b'E' => Ok(Harm::Epoch),
            _ => Err(letter),
        }
    }
}

// The fields beside table and clocks, in the order of `table::State`.
#[derive(Clone, Copy)]
pub enum Field {
    N,
    Own,
    Local,
    Bar,
    Voted,
    Proposed,
    Count,
    Kept,
    Torn,
}

// By its number; any past the last is the last.
impl From<u32> for Field {
    fn from(number: u32) -> Field {
        match number {
            0 => Field::N,
            1 => Field::Own,
            2 => Field::Local,
            3 => Field::Bar,
            4 => Field::Voted,
            5 => Field::Proposed,
            6 => Field::Count,
            7 => Field::Kept,
            _ => Field::Torn,
        }
    }
}

impl Field {
    // Makes it `to`; torn, where that isn't 0.
    pub fn set(self, s: &mut State, to: u32) {
        match self {
            Field::N => s.n = to,
            Field::Own => s.own.0 = to,
            Field::Local => s.local.0 = to,
            Field::Bar => s.bar.0 = to,
            Field::Voted => s.voted.0 = to,
            Field::Proposed => s.proposed.0 = to,
            Field::Count => s.count = to,
            Field::Kept => s.kept.0 = to,
            Field::Torn => s.torn = to != 0,
        }
    }
}

// Makes one byte another.
fn turn<const N: usize>(bytes: &mut [u8; N], k: u32)
    requires { 0 < N }
{
    let i = k as usize % N;
    bytes[i] = u8::from(bytes[i] == 0);
}

impl Harm {
    // The state with this change.
    pub fn done(self, s: &State, at: u32, to: u32) -> State {
        let mut t = *s;
        let row = &mut t.blocks[at as usize % ROWS];
        let node = to as usize % NODES;
        match self {
            Harm::Field => Field::from(at).set(&mut t, to),
            Harm::Clock => t.clocks[node] = Epoch(u32::from(s.clocks[node].0 == 0)),
            Harm::Name => row.name = s.blocks[to as usize % ROWS].name,
            Harm::Almost => {
                row.name = s.blocks[FIRST_PLACE].name;
                turn(&mut row.name, to);
            }
            Harm::Turned => turn(&mut row.name, to),
            Harm::Payload => turn(&mut row.payload, to),
            Harm::Voter => row.voters[node] = !row.voters[node],
            Harm::On => row.parent.0 = to,
            Harm::Epoch => row.epoch.0 = to,
        }
        t
    }
}
