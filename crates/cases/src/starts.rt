// "Starting with n of 0 or above 32, or own number not below n, answers 15 and an all-zero state, which every later call refuses with 1."

use crate::calls::{UNTOUCHED, untouched};
use lists::finals::final_list;
use std::fmt;
use table::{Answer, Block, Epoch, NAME_BYTES, NODES, NodeNo, PAYLOAD_BYTES, Place, ROWS, State};

// Room for two names.
const LIST_BYTES: usize = 64;

// "an all-zero state", built here and not by `table`.
fn zeros() -> State {
    let row = Block {
        name: [0; NAME_BYTES],
        payload: [0; PAYLOAD_BYTES],
        voters: [false; NODES],
        epoch: Epoch(0),
        parent: Place(0),
    };
    State {
        blocks: [row; ROWS],
        clocks: [Epoch(0); NODES],
        n: 0,
        own: NodeNo(0),
        local: Epoch(0),
        bar: Epoch(0),
        voted: Epoch(0),
        proposed: Epoch(0),
        count: 0,
        kept: Place(0),
        torn: false,
    }
}

// Is a state all zero.
pub fn all_zero(s: &State) -> bool {
    *s == zeros()
}

// What the final list answers into room for two names: "1 for a badly shaped state, .. nothing written"
#[derive(Drop)]
pub struct Written {
    answer: Answer,
    count: u32,
    same: bool,
}

impl Written {
    pub fn of(s: &State) -> Written {
        let mut list = [UNTOUCHED; LIST_BYTES];
        let (answer, count) = match final_list(s, &mut list) {
            Ok(count) => (Answer::Taken, count),
            Err(answer) => (answer, 0),
        };
        Written {
            answer,
            count,
            same: untouched(&list),
        }
    }
}

impl fmt::Display for Written {
    fn fmt<W: fmt::Write>(&self, f: &mut fmt::Formatter<W>) -> fmt::Result {
        write!(f, "{}, count {}", self.answer as u32, self.count)?;
        if self.same {
            f.write_str(", nothing written")?;
        }
        Ok(())
    }
}
