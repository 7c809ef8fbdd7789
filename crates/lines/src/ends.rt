// The only line of a refused recording, and the last line of any other; by `Line`, and no `write!`, as its head says.

ghost use Rattle.std.specs.Prelude.{◌≡◌, ◌≤◌, [], ◌∷◌, ◌++◌, length};
ghost use Rattle.pala.specs.Lines.{digits, end_line, new_line, setup_line};
ghost use Rattle.lines.specs.Text.{Lined, lined};

use crate::text::{Line, NEW_LINE};
use node::answers::number_of;
use table::Answer;

// 6 letters, 20 digits and a new line at most.
const ROOM: usize = 27;

// A word and a number, at the start of a buffer that has room; else nothing: length 0 and no Option, as the clauses' `lined` says.
fn put_last(word: &[u8], number: u64, text: &mut [u8]) -> usize
    requires { length word.now ≤ 6 }
    ensures { ◌≡◌ {A = Lined} (record { length = result; text = text.new }) (lined (word.now ++ (digits number ++ (new_line ∷ []))) text.old) }
{
    if text.len() < ROOM {
        return 0;
    }
    let mut line = Line { text, at: 0 };
    line.put_bytes(word);
    line.put_number(number, NEW_LINE);
    line.at
}

// "Last, `end` and the number of lines.", at the start of a buffer that has room; else nothing.
pub fn put_end(count: u64, text: &mut [u8]) -> usize
    ensures { ◌≡◌ {A = Lined} (record { length = result; text = text.new }) (lined (end_line count) text.old) }
{
    put_last(b"end ", count, text)
}

// "only `setup 15`", at the start of a buffer that has room; else nothing.
pub fn put_setup(text: &mut [u8]) -> usize
    ensures { ◌≡◌ {A = Lined} (record { length = result; text = text.new }) (lined setup_line text.old) }
{
    put_last(b"setup ", u64::from(number_of(Answer::Setup)), text)
}
