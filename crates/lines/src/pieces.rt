// A recording, piece by piece: each piece is played from the state and the record number that the last one left.

ghost use Rattle.std.specs.Prelude.{◌≡◌};
ghost use Rattle.pala.specs.Answers.{answered};
ghost use Rattle.lines.specs.Play.{Piece, Ready, piece, play_piece};

use crate::text::Line;
use lists::finals::final_count;
use node::answers::number_of;
use node::{decide_shaped, take_shaped};
use record::RECORD_BYTES;
use shape::shaped::Shaped;
use shape::well_shaped;
use table::{Answer, State};

// The longest line.
const LINE_MOST: usize = 49;

// The loop over a piece's records: "Each 96-byte stretch is used where it stands", and each record gets its line.
fn play_records(s: &mut State, before: &mut u64, input: &[u8], text: &mut [u8]) -> usize
    requires { Ready s.old before.old input.now text.old }
    ensures { ◌≡◌ {A = Piece} (record { answer = Answer.Taken; state = s.new; before = before.new; length = result; text = text.new }) (piece Answer.Taken s.old before.old input.now text.old) }
{
    let mut line = Line { text, at: 0 };
    let mut names = final_count(s);
    for rec in input.chunks(RECORD_BYTES) {
        *before += 1;
        let d = decide_shaped(&Shaped { state: s }, rec);
        let kept = s.kept;
        take_shaped(s, &d);
        // Counted anew only where another final block is kept than before.
        if s.kept != kept {
            names = final_count(s);
        }
        let answer = d.verdict.err().unwrap_or(Answer::Taken);
        line.put_record(*before, number_of(answer), s.local.0, s.bar.0, names);
    }
    line.at
}

// A piece of a recording played from a state, of which `before` records came earlier; every state, input and buffer is answered.
pub fn play(s: &mut State, before: &mut u64, input: &[u8], text: &mut [u8]) -> Result<usize, Answer>
    ensures answer { result ≡ answered (play_piece s.old before.old input.now text.old).answer (play_piece s.old before.old input.now text.old).length }
    ensures state { s.new ≡ (play_piece s.old before.old input.now text.old).state }
    ensures number { before.new ≡ (play_piece s.old before.old input.now text.old).before }
    ensures text { text.new ≡ (play_piece s.old before.old input.now text.old).text }
{
    if !well_shaped(s) {
        return Err(Answer::State);
    }
    let count = input.len().div_ceil(RECORD_BYTES);
    if text.len() / LINE_MOST < count {
        return Err(Answer::Length);
    }
    if u64::MAX - (count as u64) < *before {
        return Err(Answer::Full);
    }
    Ok(play_records(s, before, input, text))
}
