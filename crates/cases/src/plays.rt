// What an order does: to the states, and in words.

use crate::calls::{begun, call, next};
use crate::harms::Field;
use crate::orders::{Opener, Order, Word};
use crate::quorums::quorum_at;
use crate::records::{Fields, RECORD_BYTES, low_byte, with_byte};
use crate::starts::{Written, all_zero};
use crate::sweeps::{started, swept};
use crate::tables::Table;
use crate::tallies::Tally;
use crate::told::{Finals, tell};
use lists::finals::final_count;
use std::{io, mem};
use table::State;

// What the orders play with: the record at hand, the tally, the state put aside and the state.
#[derive(Drop)]
pub struct Play {
    rec: [u8; RECORD_BYTES],
    tally: Tally,
    kept: State,
    now: State,
}

impl Play {
    // Before the first order.
    pub fn new() -> Play {
        let now = begun(0, 0);
        Play {
            rec: [0; RECORD_BYTES],
            tally: Tally::default(),
            kept: now,
            now,
        }
    }

    // Plays an order. It may do more than one of these: a record is taken up and played, and a sweep may go over any word.
    pub fn play(&mut self, rt: &impl Print, order: &Order) -> io::Result<()> {
        self.take_up(order);
        self.sweep(rt, order)?;
        self.change(rt, order)?;
        self.say(rt, order)
    }

    // The record that an order names; else the one that was at hand, perhaps with another byte.
    fn take_up(&mut self, order: &Order) {
        match order.word {
            Word::Record(kind) => {
                let [sender, epoch, name, parent, payload, _] = order.numbers;
                let fields = Fields {
                    kind: kind as u8,
                    sender: low_byte(sender),
                    epoch,
                    name: low_byte(name),
                    parent: low_byte(parent),
                    payload: low_byte(payload),
                };
                self.rec = fields.record();
            }
            Word::Mark => {
                let [at, to, ..] = order.numbers;
                self.rec = with_byte(&self.rec, at, to);
            }
            _ => {}
        }
    }

    // A sweep adds to the tally; where it is told, a new one begins.
    fn sweep(&mut self, rt: &impl Print, order: &Order) -> io::Result<()> {
        match order.opener {
            Opener::Loud | Opener::Quiet => Ok(()),
            Opener::Sweep => {
                swept(&mut self.tally, &self.now, &self.rec, order);
                Ok(())
            }
            Opener::ToldSweep => {
                swept(&mut self.tally, &self.now, &self.rec, order);
                rt.print(mem::take(&mut self.tally))
            }
        }
    }

    // What an order does to the states; a record is told where its order is loud.
    fn change(&mut self, rt: &impl Print, order: &Order) -> io::Result<()> {
        let [first, second, ..] = order.numbers;
        match order.word {
            Word::Record(_) if order.opener == Opener::Loud => {
                tell(rt, &mut self.now, &self.rec)?;
            }
            Word::Record(_) => {
                next(&mut self.now, &self.rec);
            }
            Word::Keep => self.kept = self.now,
            Word::Return => self.now = self.kept,
            Word::Start => self.now = begun(first, second),
            Word::Table => self.now = Table::from(first).full(),
            Word::Field => Field::from(first).set(&mut self.now, second),
            _ => {}
        }
        Ok(())
    }

    // What an order says.
    fn say(&self, rt: &impl Print, order: &Order) -> io::Result<()> {
        let [first, second, ..] = order.numbers;
        match order.word {
            Word::Answer => rt.print(call(&self.kept, &self.rec).answer as u32),
            Word::Out => rt.print(self.sent(first)),
            Word::Local => rt.print(self.now.local.0),
            Word::Bar => rt.print(self.now.bar.0),
            Word::Count => rt.print(final_count(&self.now)),
            Word::Names => rt.print(Finals::of(&self.now)),
            Word::Written => rt.print(Written::of(&self.now)),
            Word::AllZero if all_zero(&self.now) => rt.print(", all zero"),
            Word::Quorum => rt.print(quorum_at(first)),
            Word::Gateway => rt.print(started(first, second) as u32),
            _ => Ok(()),
        }
    }

    // A byte of what the record at hand has the kept state send; past the end, the first again.
    fn sent(&self, at: u32) -> u8 {
        call(&self.kept, &self.rec).out[at as usize % RECORD_BYTES]
    }
}
