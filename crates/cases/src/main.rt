// The program `cases`: plays the orders on its standard input through the public `node::step`, and prints what came back.
// Its file `stdin` has 01's cases and calls at the limits of its rules; its file `stdout` was written from 01, and a check compares.

#![tactic(auto)]

mod calls;
mod describe;
mod harms;
mod names;
mod orders;
mod plays;
mod quorums;
mod records;
mod starts;
mod sweeps;
mod tables;
mod tallies;
mod told;

use intake::read_full;
use orders::{Opener, Order, closes};
use plays::Play;
use std::io;

// Room for the orders.
const SCRIPT_BYTES: usize = 65536;

// Plays each order that closes, and prints what stands outside of them as it stands.
fn run(rt: &impl Print, script: &[u8]) -> io::Result<()> {
    let mut play = Play::new();
    let mut rest = script;
    while let Some((byte, behind)) = rest.split_first() {
        rest = behind;
        match Opener::try_from(*byte) {
            Ok(opener) => {
                let Some(end) = rest.iter().position(|byte| closes(*byte)) else {
                    return Ok(());
                };
                play.play(rt, &Order::new(opener, &rest[..end]))?;
                rest = &rest[end + 1..];
            }
            Err(text) => rt.write_all(&[text])?,
        }
    }
    Ok(())
}

fn main(rt: HostRuntime) -> io::Result<()> {
    let mut script = [0; SCRIPT_BYTES];
    let got = read_full(&mut rt.stdin(), &mut script)?;
    run(&rt, &script[..got])
}
