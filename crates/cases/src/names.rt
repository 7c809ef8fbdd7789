// Names by 01's letters.

use std::fmt;

// "The all-zero name is the genesis"
const GENESIS: u8 = 0;
// The first letter, and the byte that stands for it: "A is 32 bytes of 0x0A".
const LETTER: u8 = b'A';

const LETTER_FROM: u8 = 0x0A;
// A name of 0x1A is A'.
const PRIME: u8 = 0x10;

// A name that is one byte throughout: its letter, or two hexadecimal digits where it is no letter's.
#[derive(Drop)]
pub struct Name(pub u8);

impl fmt::Display for Name {
    fn fmt<W: fmt::Write>(&self, f: &mut fmt::Formatter<W>) -> fmt::Result {
        let low = self.0 % PRIME;
        if self.0 == GENESIS {
            f.write_str("genesis")
        } else if low < LETTER_FROM {
            write!(f, "{:02x}", self.0)
        } else {
            let letter = char::from(LETTER + (low - LETTER_FROM));
            let prime = if PRIME <= self.0 { "'" } else { "" };
            write!(f, "{letter}{prime}")
        }
    }
}
