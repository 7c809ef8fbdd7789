// The program `desk`: reads a head and the records of up to eight gateways from standard input, and prints a line for each record.
// It only reads and writes, in large pieces; the text is made by `hall` and `lines`, whose promises say that it is M-101's.

#![tactic(auto)]

use hall::heads::open;
use hall::pieces::play;
use intake::{drive, print, read_full};
use lines::ends::put_setup;
use node::answers::is_taken;
use std::io;

// A piece of the recording: 2,048 records, each after its receiver's byte, and room for as many of the longest lines.
const PIECE_BYTES: usize = 198656;

const TEXT_BYTES: usize = 94208;
// Room for the only line of a refused recording.
const LINE_BYTES: usize = 32;

fn main(rt: HostRuntime) -> io::Result<()> {
    let mut reader = rt.stdin();
    let mut writer = rt.stdout();
    let mut head = [0; 2];
    let got = read_full(&mut reader, &mut head)?;
    // A head hands back a hall either way, so its answer is asked for.
    let opened = open(&head[..got]);
    if !is_taken(opened.answer) {
        // "only `setup 15`"
        return print::<LINE_BYTES, _, _>(&mut writer, put_setup);
    }
    let mut hall = opened.hall;
    let mut before = 0;
    // A piece that `play` refuses has no text.
    drive::<PIECE_BYTES, TEXT_BYTES, _, _, _>(&mut reader, &mut writer, |piece, text| {
        play(&mut hall, &mut before, piece, text).unwrap_or(0)
    })
}
