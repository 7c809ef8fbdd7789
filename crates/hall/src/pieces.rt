// A hall's recording, piece by piece: each piece is played from the hall and the record number that the last one left.

ghost use Rattle.std.specs.Prelude.{◌≡◌, true};
ghost use Rattle.table.specs.Scan.{pick};
ghost use Rattle.pala.specs.Answers.{answered};
ghost use Rattle.lines.specs.Text.{Lined, worded_at};
ghost use Rattle.accord.specs.Head.{hall_shaped};
ghost use Rattle.accord.specs.Rulings.{hall_after, verdict};
ghost use Rattle.accord.specs.Text.{no_word, yes_word};
ghost use Rattle.accord.specs.Words.{agree};
ghost use Rattle.hall.specs.Play.{HallPiece, HallReady, hall_piece, play_hall};

use crate::chains::agree;
use crate::judging::{judge, number_of};
use crate::seats::{ShapedHall, hall_shaped};
use accord::{Hall, Verdict};
use lines::words::put_worded;
use node::{decide_shaped, take_shaped};
use record::RECORD_BYTES;
use table::Answer;

// "one byte before each record names the receiver"
const SENT_BYTES: usize = 1 + RECORD_BYTES;
// The room asked for each line.
const LINE_MOST: usize = 46;

// One record to its receiver, whose state moves on where it is taken; `word` says yes or no of the hall, before it and after.
fn play_record(h: &mut Hall, word: &mut bool, to: usize, rec: &[u8]) -> Verdict
    requires { (hall_shaped h.old ≡ true) × (word.old ≡ agree h.old) }
    ensures told { result ≡ verdict h.old to rec.now }
    ensures after { h.new ≡ hall_after h.old to rec.now }
    ensures shaped { hall_shaped h.new ≡ true }
    ensures says { word.new ≡ agree h.new }
{
    let hall = ShapedHall { hall: h };
    let Some(s) = hall.honest(to) else {
        return Verdict::Receiver;
    };
    let d = decide_shaped(&s, rec);
    if let Err(refusal) = judge(&hall, &s, &d) {
        return refusal;
    }
    let own = &mut h.states[to];
    let kept = own.kept;
    take_shaped(own, &d);
    // No list has changed unless another final block is kept.
    if own.kept != kept {
        *word = agree(&ShapedHall { hall: h });
    }
    Verdict::Answered(Answer::Taken)
}

// "After each record the program prints its number, the answer and yes or no"
// Put by `lines`, and no `write!`, as its `text` says.
fn put_said(text: &mut [u8], at: usize, k: u64, told: u32, word: bool) -> usize
    ensures { ◌≡◌ {A = Lined} (record { length = result; text = text.new }) (worded_at k told (pick word yes_word no_word) at text.old) }
{
    let said: &[u8] = if word { b"yes" } else { b"no" };
    put_worded(text, at, k, u64::from(told), said)
}

// The loop over a piece's records, each of which gets its line.
fn play_records(h: &mut Hall, before: &mut u64, input: &[u8], text: &mut [u8]) -> usize
    requires { HallReady h.old before.old input.now text.old }
    ensures { ◌≡◌ {A = HallPiece} (record { answer = Answer.Taken; hall = h.new; before = before.new; length = result; text = text.new }) (hall_piece Answer.Taken h.old before.old input.now text.old) }
{
    let mut word = agree(&ShapedHall { hall: h });
    let mut end = 0;
    for sent in input.chunks(SENT_BYTES) {
        *before += 1;
        let told = play_record(h, &mut word, usize::from(sent[0]), &sent[1..]);
        end = put_said(text, end, *before, number_of(told), word);
    }
    end
}

// A piece of a recording played on a hall, of which `before` records came earlier; every hall, input and buffer is answered.
// The refusals are those of `lines::pieces::play`, of another shape, stretch and line, each by its own definition.
pub fn play(h: &mut Hall, before: &mut u64, input: &[u8], text: &mut [u8]) -> Result<usize, Answer>
    ensures answer { result ≡ answered (play_hall h.old before.old input.now text.old).answer (play_hall h.old before.old input.now text.old).length }
    ensures hall { h.new ≡ (play_hall h.old before.old input.now text.old).hall }
    ensures number { before.new ≡ (play_hall h.old before.old input.now text.old).before }
    ensures text { text.new ≡ (play_hall h.old before.old input.now text.old).text }
{
    if !hall_shaped(h) {
        return Err(Answer::State);
    }
    let count = input.len().div_ceil(SENT_BYTES);
    if text.len() / LINE_MOST < count {
        return Err(Answer::Length);
    }
    if u64::MAX - (count as u64) < *before {
        return Err(Answer::Full);
    }
    Ok(play_records(h, before, input, text))
}
