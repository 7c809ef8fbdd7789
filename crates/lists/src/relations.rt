// "Two final lists": their relation, its number for C, and the tail of the longer one. The two stand apart, as C and the tail lend them.

ghost use Rattle.std.specs.Prelude.{◌≡◌, ◌+◌, ◌*◌, ◌/◌, ◌≤◌, ltb, min, length};
ghost use Rattle.table.specs.Bytes.{same};
ghost use Rattle.table.specs.Rows.{name_bytes};
ghost use Rattle.table.specs.Scan.{pick};
ghost use Rattle.pala.specs.Lists.{agreeing, name_at, relation, relation_code, tail};
ghost use Rattle.lists.specs.Tails.{tail_start};

use std::cmp::Ordering;
use table::{NAME_BYTES, Relation};

// "The relation reaches C as relation x 2^60 + index."
const UNIT: u64 = 1 << 60;

// The k-th name of a list of names.
fn name_at(list: &[u8], k: usize) -> &[u8]
    requires { name_bytes * k + name_bytes ≤ length list.now }
    ensures { result.now ≡ name_at list.now k }
{
    let from = NAME_BYTES * k;
    &list[from..from + NAME_BYTES]
}

// Are two names the same; `table`'s `same_name` takes arrays. All bytes are looked at, so that many are compared at a time: `==` on slices is a call, and
// takes twice as long (tried).
fn same_name(a: &[u8], b: &[u8]) -> bool
    requires { length a.now ≡ length b.now }
    ensures { result ≡ same a.now b.now }
{
    let mut alike = true;
    for (x, y) in a.iter().zip(b) {
        alike &= x == y;
    }
    alike
}

// "3 fork, with the index of the first name that differs", of the whole names that both lists have. By index: std has no law of what `chunks_exact` yields (tried).
fn fork(a: &[u8], b: &[u8]) -> Option<usize>
    ensures { result ≡ pick (ltb (agreeing a.now b.now) (min (length a.now / name_bytes) (length b.now / name_bytes))) (Some (agreeing a.now b.now)) None }
{
    let both = (a.len() / NAME_BYTES).min(b.len() / NAME_BYTES);
    // A loop and no `find`, which is slower to see that there is no name to compare (tried: a fifth).
    for k in 0..both {
        if !same_name(name_at(a, k), name_at(b, k)) {
            return Some(k);
        }
    }
    None
}

// How two final lists stand to one another.
pub fn relation(a: &[u8], b: &[u8]) -> Relation
    ensures { result ≡ relation a.now b.now }
{
    if a.len() % NAME_BYTES != 0 || b.len() % NAME_BYTES != 0 {
        return Relation::Broken;
    }
    if let Some(k) = fork(a, b) {
        return Relation::Fork(k as u64);
    }
    match a.len().cmp(&b.len()) {
        Ordering::Equal => Relation::Equal,
        Ordering::Greater => Relation::FirstLonger,
        Ordering::Less => Relation::SecondLonger,
    }
}

// "relation 0 equal, 1 first longer and beginning with the second, 2 the reverse, 3 fork, .. 4 a length that isn't a
// multiple of 32"; "The relation reaches C as relation x 2^60 + index."
pub fn code(a: &[u8], b: &[u8]) -> u64
    ensures { result ≡ relation_code (relation a.now b.now) }
{
    match relation(a, b) {
        Relation::Equal => 0,
        Relation::FirstLonger => UNIT,
        Relation::SecondLonger => 2 * UNIT,
        Relation::Fork(k) => 3 * UNIT + k,
        Relation::Broken => 4 * UNIT,
    }
}

// "the tail of whichever list is longer, as a part of that caller's own slice": its bytes, and where it starts.
pub fn tail<'a>(a: &'a [u8], b: &'a [u8]) -> &'a [u8]
    ensures result_value { result.now ≡ tail a.now b.now }
    ensures ref_ptr_value { result.ref_ptr ≡ tail_start (relation a.now b.now) a.now b.now a.entry.ref_ptr b.entry.ref_ptr }
{
    match relation(a, b) {
        Relation::FirstLonger => &a[b.len()..],
        Relation::SecondLonger => &b[a.len()..],
        Relation::Equal | Relation::Fork(_) => &a[..0],
        // An arm of its own, so that a wrong version (`tail_broken_in_the_second`) is wrong here alone.
        Relation::Broken => &a[..0],
    }
}
