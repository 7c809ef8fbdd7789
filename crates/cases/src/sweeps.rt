// One change after another, each to the same state or record, and how many went as they should.

use crate::calls::{UNTOUCHED, call, untouched};
use crate::harms::Harm;
use crate::orders::{Order, Word};
use crate::records::{RECORD_BYTES, with_byte};
use crate::tallies::Tally;
use node::{start, step};
use std::cmp::Ordering;
use table::{Answer, State};

// "The 96-byte record", and as long an out buffer.
const WHOLE: u32 = RECORD_BYTES as u32;
// The longest record and out buffer tried.
const LONG: usize = 200;

const LENGTHS: usize = LONG + 1;

// What is changed, by two numbers, `at` and `to`.
#[derive(Clone, Copy)]
pub enum Change {
    // Byte `at` of the record is `to`; the same, and the answer must not be the wanted one.
    Byte,
    Unlike,
    // The record, the out buffer or both are of `to` bytes.
    Record,
    Lent,
    Sizes,
    // A gateway `to` of `at` is started.
    Gateway,
    // The state.
    Harm(Harm),
}

impl TryFrom<u8> for Change {
    // The letter of no change.
    type Error = u8;

    fn try_from(letter: u8) -> Result<Change, u8> {
        match letter {
            b'B' => Ok(Change::Byte),
            b'U' => Ok(Change::Unlike),
            b'R' => Ok(Change::Record),
            b'L' => Ok(Change::Lent),
            b'S' => Ok(Change::Sizes),
            b'G' => Ok(Change::Gateway),
            _ => Harm::try_from(letter).map(Change::Harm),
        }
    }
}

// What must come of a change.
#[derive(Clone, Copy)]
enum Want {
    // The answer with this number, which in a script may be no answer's.
    Answer(u32),
    // Another state, whatever the answer.
    Differs,
}

// By its number; 16 is no answer's, which go to 15.
impl From<u32> for Want {
    fn from(number: u32) -> Want {
        match number {
            16 => Want::Differs,
            _ => Want::Answer(number),
        }
    }
}

impl Want {
    // Is it this answer.
    fn is(self, answer: Answer) -> bool {
        match self {
            Want::Answer(number) => number == answer as u32,
            Want::Differs => false,
        }
    }
}

// Where `to` stands to `at`, by a number: below, at the same, above; with any other, anywhere.
fn relation_of(number: u32) -> Option<Ordering> {
    match number {
        1 => Some(Ordering::Less),
        2 => Some(Ordering::Equal),
        3 => Some(Ordering::Greater),
        _ => None,
    }
}

// The answer to a start.
pub fn started(n: u32, own: u32) -> Answer {
    start(n, own).answer
}

// A change of a state or a record at each `at`, each time over each `to` that stands so to it, and what must come of it.
#[derive(Drop)]
struct Sweep<'a> {
    state: &'a State,
    rec: &'a [u8; RECORD_BYTES],
    word: Word,
    to_first: u32,
    to_last: u32,
    relation: Option<Ordering>,
    want: Want,
}

impl Sweep<'_> {
    // A call with so many bytes of a record, zeros behind it, and of an out buffer: is it answered as wanted
    // and, where it refuses, "state and out buffer come back the same".
    fn answered(&self, s: &State, rec: &[u8; RECORD_BYTES], length: u32, room: u32) -> bool {
        let mut long = [0; LONG];
        long[..RECORD_BYTES].copy_from_slice(rec);
        let mut out = [UNTOUCHED; LONG];
        let mut t = *s;
        let answer = step(
            &mut t,
            &long[..length as usize % LENGTHS],
            &mut out[..room as usize % LENGTHS],
        );
        self.want.is(answer) && (answer == Answer::Taken || untouched(&out) && t == *s)
    }

    // Did a change of the state come to what it must.
    fn state_wanted(&self, changed: &State) -> bool {
        match self.want {
            Want::Differs => changed != self.state,
            Want::Answer(_) => self.answered(changed, self.rec, WHOLE, WHOLE),
        }
    }

    // Did a change come to what it must.
    fn as_wanted(&self, at: u32, to: u32) -> bool {
        let Word::Change(change) = self.word else {
            return self.state_wanted(self.state);
        };
        match change {
            Change::Byte => {
                self.answered(self.state, &with_byte(self.rec, at, to), WHOLE, WHOLE)
            }
            Change::Unlike => {
                let got = call(self.state, &with_byte(self.rec, at, to));
                !self.want.is(got.answer)
            }
            Change::Record => self.answered(self.state, self.rec, to, WHOLE),
            Change::Lent => self.answered(self.state, self.rec, WHOLE, to),
            Change::Sizes => self.answered(self.state, self.rec, to, to),
            Change::Gateway => self.want.is(started(at, to)),
            Change::Harm(harm) => self.state_wanted(&harm.done(self.state, at, to)),
        }
    }

    // Every `to` beside one `at`.
    fn across(&self, tally: &mut Tally, at: u32) {
        for to in self.to_first..=self.to_last {
            if self.relation.is_none_or(|relation| to.cmp(&at) == relation) {
                tally.count(self.as_wanted(at, to));
            }
        }
    }
}

// Every change of an order.
pub fn swept(tally: &mut Tally, state: &State, rec: &[u8; RECORD_BYTES], order: &Order) {
    let [at_first, at_last, to_first, to_last, relation, want] = order.numbers;
    let sweep = Sweep {
        state,
        rec,
        word: order.word,
        to_first,
        to_last,
        relation: relation_of(relation),
        want: Want::from(want),
    };
    for at in at_first..=at_last {
        sweep.across(tally, at);
    }
}
