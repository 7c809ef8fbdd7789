// A line of two numbers and a word, which a hall's text is made of; by `Line`, and no `write!`, as its head says.

ghost use Rattle.std.specs.Prelude.{◌≡◌, length};
ghost use Rattle.lines.specs.Text.{Lined, worded_at};

use crate::text::{Line, NEW_LINE, SPACE};

// Two numbers of 20 digits, two spaces and a new line at most.
const NUMBERS_MOST: usize = 43;

// Buffer and index stand apart, and an index that stays says that nothing is written: the contract, `worded_at`, names both.
// The line from an index on, in a buffer that has room there for any two numbers and the word; else nothing. The index past it.
pub fn put_worded(text: &mut [u8], at: usize, k: u64, answer: u64, word: &[u8]) -> usize
    ensures { ◌≡◌ {A = Lined} (record { length = result; text = text.new }) (worded_at k answer word.now at text.old) }
{
    let left = text.len().saturating_sub(at);
    if left < NUMBERS_MOST || left - NUMBERS_MOST < word.len() {
        return at;
    }
    let mut line = Line { text, at };
    line.put_number(k, SPACE);
    line.put_number(answer, SPACE);
    line.put_bytes(word);
    line.put_byte(NEW_LINE);
    line.at
}
