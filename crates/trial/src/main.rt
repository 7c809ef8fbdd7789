// The program `trial`: steps states that are handed in, once each, and writes all that comes of it, byte for byte.
// It reads cases from standard input until one is short and writes a reply for each; the second program makes the cases and compares.
// It relies on `node` for the step and on `lists` for the final list, and takes nothing of a state for granted.

#![tactic(auto)]

mod cases;
mod replies;

use cases::{CASE_BYTES, Case};
use intake::read_full;
use replies::{Reply, reply_to};
use std::io::{self, Read, Write};

// Reads a case and writes its reply; may there be another.
fn try_one(reader: &mut impl Read, writer: &mut impl Write) -> io::Result<bool> {
    let mut bytes = [0; CASE_BYTES];
    let got = read_full(reader, &mut bytes)?;
    let Some(case) = Case::read(&bytes[..got]) else {
        return Ok(false);
    };
    let mut reply = Reply::unwritten();
    reply_to(case, &mut reply);
    writer.write_all(&reply.bytes)?;
    Ok(true)
}

// A loop has to end, and nothing says that the input does: it counts its turns to a number that no run uses up.
// It is not `intake::drive`, which lends a slice of no known length: a reply fills its array, and none is cut.
fn main(rt: HostRuntime) -> io::Result<()> {
    let mut reader = rt.stdin();
    let mut writer = rt.stdout();
    for _ in 0..u64::MAX {
        if !try_one(&mut reader, &mut writer)? {
            break;
        }
    }
    Ok(())
}
