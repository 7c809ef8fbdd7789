// Input in whole pieces, however its bytes arrive, each played and its text written.
#![tactic(auto)]

ghost use Rattle.std.specs.Prelude.{ℕ, List, ◌^◌, ◌<◌, ◌≤◌, IfOk, OnErr, OnOk, length, replicate, take};
ghost use Rattle.std.specs.Io.{ReadsAtMost};
ghost use Rattle.std.specs.Io.KnownBytes.{Appends, Consumes, IsAtEnd};
ghost use Rattle.std.specs.Fn.{FnOnceReturnsAtMut};
ghost use Rattle.intake.specs.Turns.{Driven};

use std::io::{self, Read, Write};

// Reads until `buf` is full or the input ends, and returns how many bytes it put at the start of `buf`.
// A read that fails ends it, and what was taken before stands there.
pub fn read_full<R: Read>(reader: &mut R, buf: &mut [u8]) -> io::Result<usize>
    ensures within { ReadsAtMost result buf.new }
    ensures bytes { IfOk result (λ n. Consumes (R.remaining reader.old) (R.remaining reader.new) (take n buf.new)) }
    ensures end { IfOk result (λ n. n < length buf.new → IsAtEnd (R.remaining reader.new)) }
    ensures none_lost { OnErr result ((n : ℕ) × (n ≤ length buf.new) × Consumes (R.remaining reader.old) (R.remaining reader.new) (take n buf.new)) }
{
    let mut done = 0;
    // `done` is how much came and no index: a read gives as many bytes as it will.
    while done < buf.len() {
        let n = reader.read(&mut buf[done..])?;
        if n == 0 {
            break;
        }
        done += n;
    }
    Ok(done)
}

// Writes a short text: `put` gets room for TEXT bytes, all zero, and answers the text's length.
pub fn print<const TEXT: usize, W: Write, F: FnOnce(&mut [u8]) -> usize>(
    writer: &mut W,
    put: F,
) -> io::Result<()>
    requires callable { F.IsAlwaysCallable put }
    requires size { TEXT < 2 ^ 63 }
    ensures { OnOk result ((n : ℕ) × (text : List ℕ) × FnOnceReturnsAtMut F.FnOnce put (replicate TEXT 0) n text × Appends (W.contents writer.old) (W.contents writer.new) (take n text)) }
{
    let mut text = [0; TEXT];
    let length = put(&mut text);
    writer.write_all(&text[..length.min(TEXT)])
}

// Reads pieces of PIECE bytes up to a shorter one, has each played, and writes its text.
// `play` gets a piece and room for TEXT bytes, all zero, and answers the text's length.
// The pieces follow from the input (law `pieces_one`); what is read at a time, and what fails, is the reader's and the writer's.
pub fn drive<
    const PIECE: usize,
    const TEXT: usize,
    R: Read,
    W: Write,
    F: FnMut(&[u8], &mut [u8]) -> usize,
>(reader: &mut R, writer: &mut W, mut play: F) -> io::Result<()>
    requires callable { F.IsAlwaysCallable play }
    requires sizes { (PIECE < 2 ^ 63) × (TEXT < 2 ^ 63) }
    ensures driven { OnOk result (Driven F.FnMut TEXT PIECE (R.remaining reader.old) (W.contents writer.old) play (R.remaining reader.new) (W.contents writer.new)) }
    ensures none_lost { OnErr result ((bs : List ℕ) × Consumes (R.remaining reader.old) (R.remaining reader.new) bs) }
{
    // A loop has to end, and nothing says that the input does: it counts its turns to a number that no run reaches. Its name is for the proof.
    'turns: for _ in 0..u64::MAX {
        let mut piece = [0; PIECE];
        let got = read_full(reader, &mut piece)?;
        let mut text = [0; TEXT];
        let end = play(&piece[..got], &mut text);
        writer.write_all(&text[..end.min(TEXT)])?;
        if got < PIECE {
            return Ok(());
        }
    }
    Ok(())
}
