// The orders of a script. What stands outside of them is printed as it stands.

use crate::harms::Harm;
use crate::records::Kind;
use crate::sweeps::Change;

// The most numbers of an order.
const NUMBERS: usize = 6;
// "A is 32 bytes of 0x0A", so that A is 10 and 1A is 26; other digits are decimal.
const TEN: u32 = 10;

const SIXTEEN: u32 = 16;

// How an order opens.
#[derive(Clone, Copy, PartialEq, Eq)]
pub enum Opener {
    // `[..]` prints, `#..` and the line's end doesn't.
    Loud,
    Quiet,
    // `(..)` is a sweep whose tally is printed, `+..` and the line's end one that is only counted.
    ToldSweep,
    Sweep,
}

impl TryFrom<u8> for Opener {
    // Text, which stands outside of orders.
    type Error = u8;

    fn try_from(byte: u8) -> Result<Opener, u8> {
        match byte {
            b'[' => Ok(Opener::Loud),
            b'#' => Ok(Opener::Quiet),
            b'(' => Ok(Opener::ToldSweep),
            b'+' => Ok(Opener::Sweep),
            _ => Err(byte),
        }
    }
}

// What an order does.
#[derive(Clone, Copy)]
pub enum Word {
    // A record of a kind is at hand, and played; another byte is in the record at hand.
    Record(Kind),
    Mark,
    // The state is put aside; it is taken again.
    Keep,
    Return,
    // The state that a start, a table or a field gives.
    Start,
    Table,
    Field,
    // What the record at hand gets on the state put aside: its answer, a byte that it sends.
    Answer,
    Out,
    // What is said of the state: local epoch, bar, count and names of the final list, what a list of two names gets, all zero.
    Local,
    Bar,
    Count,
    Names,
    Written,
    AllZero,
    // What is said of numbers alone: a quorum, the answer to a start.
    Quorum,
    Gateway,
    // What a sweep changes.
    Change(Change),
    // Nothing.
    Other,
}

impl From<u8> for Word {
    fn from(letter: u8) -> Word {
        match letter {
            b'1'..=b'6' => Kind::try_from(letter - b'0').map_or(Word::Other, Word::Record),
            b'm' => Word::Mark,
            b'k' => Word::Keep,
            b'r' => Word::Return,
            b's' => Word::Start,
            b't' => Word::Table,
            b'f' => Word::Field,
            b'a' => Word::Answer,
            b'o' => Word::Out,
            b'l' => Word::Local,
            b'b' => Word::Bar,
            b'c' => Word::Count,
            b'n' => Word::Names,
            b'w' => Word::Written,
            b'z' => Word::AllZero,
            b'q' => Word::Quorum,
            b'g' => Word::Gateway,
            _ => Change::try_from(letter).map_or(Word::Other, Word::Change),
        }
    }
}

// An order: of its words the first letter counts, and the numbers between its commas.
#[derive(Clone, Copy)]
pub struct Order {
    pub opener: Opener,
    pub word: Word,
    pub numbers: [u32; NUMBERS],
}

impl Order {
    // The order that stands between an opener and its end. Zero bytes before the first letter don't count.
    pub fn new(opener: Opener, text: &[u8]) -> Order {
        let (word, numbers) = match text.iter().position(|byte| *byte != 0) {
            Some(first) => (Word::from(text[first]), numbers_in(&text[first + 1..])),
            None => (Word::Other, [0; NUMBERS]),
        };
        Order {
            opener,
            word,
            numbers,
        }
    }
}

// Does a byte end an order.
pub fn closes(byte: u8) -> bool {
    matches!(byte, b']' | b')' | b'\n')
}

// The numbers between commas; past the last the first is next, and goes on.
fn numbers_in(text: &[u8]) -> [u32; NUMBERS] {
    let mut numbers = [0; NUMBERS];
    for (k, digits) in text.split(|byte| *byte == b',').enumerate() {
        let at = k % NUMBERS;
        numbers[at] = digits.iter().fold(numbers[at], |x, digit| grown(x, *digit));
    }
    numbers
}

// A number of 32 bits with one digit more; any other byte leaves it.
fn grown(x: u32, digit: u8) -> u32 {
    match digit {
        b'0'..=b'9' => x.wrapping_mul(TEN).wrapping_add(u32::from(digit - b'0')),
        b'A'..=b'F' => x
            .wrapping_mul(SIXTEEN)
            .wrapping_add(u32::from(digit - b'A') + TEN),
        _ => x,
    }
}
