// The program `replay`: reads n, own number and records from standard input, and prints a line for each record.
// It only reads and writes, in large pieces; the text is made by `lines`, whose promises say that it is 01's.

#![tactic(auto)]

use intake::{drive, print, read_full};
use lines::ends::{put_end, put_setup};
use lines::pieces::play;
use node::answers::is_taken;
use node::start;
use std::io;

// A piece of the recording: 512 records, and room for as many of the longest lines.
const PIECE_BYTES: usize = 49152;

const TEXT_BYTES: usize = 25088;
// Room for the first or the last line.
const LINE_BYTES: usize = 32;

fn main(rt: HostRuntime) -> io::Result<()> {
    let mut reader = rt.stdin();
    let mut writer = rt.stdout();
    let mut head = [0; 2];
    let got = read_full(&mut reader, &mut head)?;
    let [n, own] = head;
    // A start hands back a state either way, so its answer is asked for.
    let reply = start(u32::from(n), u32::from(own));
    if got < head.len() || !is_taken(reply.answer) {
        return print::<LINE_BYTES, _, _>(&mut writer, put_setup);
    }
    let mut state = reply.state;
    let mut count = 0;
    // A piece that `play` refuses has no text.
    drive::<PIECE_BYTES, TEXT_BYTES, _, _, _>(&mut reader, &mut writer, |piece, text| {
        play(&mut state, &mut count, piece, text).unwrap_or(0)
    })?;
    print::<LINE_BYTES, _, _>(&mut writer, |line| put_end(count, line))
}
