// "no two alike": names are compared by a key first, and byte by byte only where the keys are the same.

ghost use Rattle.std.specs.Prelude.{◌≡◌, ◌≤◌, eqb, false, length, map, take};
ghost use Rattle.std.specs.List.{list_any};
ghost use Rattle.table.specs.Rows.{capacity, rows};
ghost use Rattle.shape.specs.Parts.{apart, key, names_apart};

use std::array::from_fn;
use table::names::same_name;
use table::{Block, NAME_BYTES, ROWS, State};

// How many marks tell the keys seen apart; it is prime, so that every byte of a key counts. Few keys share one: where all do,
// the test of the shape takes half as many instructions again.
const MARKS: usize = 251;

// How many keys are compared at a time.
const RUN: usize = 8;

// The key of a name: its first two bytes and its last two.
fn key_of(name: &[u8; NAME_BYTES]) -> u32
    ensures { result ≡ key name.now }
{
    let [a, b, .., c, d] = *name;
    u32::from_le_bytes([a, b, c, d])
}

// The keys of the rows' names, side by side, where many are compared at a time; in the blocks they stand 96 bytes apart.
fn keys_of(blocks: &[Block; ROWS]) -> [u32; ROWS]
    ensures { result ≡ map (λ b. key b.name) blocks.now }
{
    from_fn(|p| key_of(&blocks[p].name))
}

// Is a key among others. All are looked at, so that many are compared at a time.
fn key_among(keys: &[u32], key: u32) -> bool
    ensures { result ≡ list_any (λ k. eqb k key) keys.now }
{
    let mut found = false;
    for k in keys {
        found |= *k == key;
    }
    found
}

// How many keys, in whole runs from the first on, a search for a key passes over: it is none of them.
fn passed(keys: &[u32], key: u32) -> usize
    ensures within { result ≤ length keys.now }
    ensures none { list_any (λ k. eqb k key) (take result keys.now) ≡ false }
{
    for run in 0..keys.len() / RUN {
        let from = RUN * run;
        if key_among(&keys[from..from + RUN], key) {
            return from;
        }
    }
    keys.len() / RUN * RUN
}

// Has no row below p its name. Keys are asked before names, and those passed over not at all.
fn apart(s: &State, keys: &[u32; ROWS], p: usize) -> bool
    requires { (p ≤ s.now.count) × (s.now.count ≤ capacity) × (keys.now ≡ map (λ b. key b.name) s.now.blocks) }
    ensures { result ≡ apart (rows s.now) p }
{
    let from = passed(&keys[..p], keys[p]);
    (from..p).all(|q| keys[q] != keys[p] || !same_name(&s.blocks[q].name, &s.blocks[p].name))
}

// Has no row the name of one below it. A row whose key is the first of its mark has no such row.
pub fn names_apart(s: &State) -> bool
    requires { s.now.count ≤ capacity }
    ensures { result ≡ names_apart s.now }
{
    let keys = keys_of(&s.blocks);
    let mut seen = [false; MARKS];
    for p in 0..s.count as usize + 1 {
        let mark = keys[p] as usize % MARKS;
        if seen[mark] && !apart(s, &keys, p) {
            return false;
        }
        seen[mark] = true;
    }
    true
}
