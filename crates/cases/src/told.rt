// A record played and told: the record, the answer, and what the call left.

use crate::calls::{Outcome, UNTOUCHED, call, untouched};
use crate::describe::Described;
use crate::names::Name;
use crate::records::RECORD_BYTES;
use lists::finals::final_list;
use std::{fmt, io};
use table::{Answer, CAPACITY, NAME_BYTES, State};

// The final list of a state: "names .. 32 bytes each", and room for 64 of them; "the count is returned".
#[derive(Drop)]
pub struct Finals {
    names: [[u8; NAME_BYTES]; CAPACITY as usize],
    count: usize,
}

impl Finals {
    pub fn of(s: &State) -> Finals {
        let mut names = [[UNTOUCHED; NAME_BYTES]; CAPACITY as usize];
        let count = final_list(s, names.as_flattened_mut()).unwrap_or(0) as usize;
        Finals { names, count }
    }
}

// "names from the first block after genesis to the kept final block"; `?` where a name's bytes are not all one,
// or "the rest of it unchanged" doesn't hold.
impl fmt::Display for Finals {
    fn fmt<W: fmt::Write>(&self, f: &mut fmt::Formatter<W>) -> fmt::Result {
        if self.count == 0 {
            f.write_str(" empty")?;
        }
        for (k, name) in self.names.iter().enumerate() {
            let byte = if k < self.count {
                write!(f, " {}", Name(name[0]))?;
                name[0]
            } else {
                UNTOUCHED
            };
            if *name != [byte; NAME_BYTES] {
                f.write_str("?")?;
            }
        }
        Ok(())
    }
}

// A record that was taken: the local epoch, the bar, the final list, what is sent.
fn tell_taken(rt: &impl Print, got: &Outcome) -> io::Result<()> {
    print!(rt;
        ", local {}, bar {}, final{}, sends ",
        got.state.local.0,
        got.state.bar.0,
        Finals::of(&got.state)
    )?;
    if untouched(&got.out) {
        print!(rt; "nothing")?;
    } else {
        print!(rt; "{}", Described(&got.out))?;
    }
    if got.state.torn {
        print!(rt; ", torn")?;
    }
    Ok(())
}

// Plays a record and tells it.
pub fn tell(rt: &impl Print, s: &mut State, rec: &[u8; RECORD_BYTES]) -> io::Result<()> {
    let got = call(s, rec);
    print!(rt; "{}: {}", Described(rec), got.answer as u32)?;
    if got.answer == Answer::Taken {
        tell_taken(rt, &got)?;
    } else if untouched(&got.out) && got.state == *s {
        // "state and out buffer come back the same"
        print!(rt; ", handed back")?;
    } else {
        print!(rt; ", CHANGED")?;
    }
    *s = got.state;
    Ok(())
}
