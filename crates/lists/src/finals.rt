// The final list: "names from the first block after genesis to the kept final block".

ghost use Rattle.std.specs.Prelude.{◌≡◌, ◌++◌, ◌*◌, ◌≤◌, drop, length};
ghost use Rattle.table.specs.Rows.{name_bytes};
ghost use Rattle.pala.specs.Answers.{answered};
ghost use Rattle.pala.specs.Lists.{final_list, final_names, joined};

use shape::shaped::Shaped;
use table::rows::{at, lower};
use table::{Answer, CAPACITY, NAME_BYTES, State};

// Room for the longest list: "up to 64 further blocks".
pub const LIST_BYTES: usize = NAME_BYTES * CAPACITY as usize;

// How many names the final list has. Down the parents to the genesis: no index is counted.
pub fn final_count(s: &State) -> u32
    ensures { result ≡ length (final_names s.now) }
{
    let mut n = 0;
    let mut p = s.kept;
    while p.0 > 0 {
        p = lower(at(s, p).parent, p);
        n += 1;
    }
    n
}

// The names of a final list, so many, from the kept block's down: the last comes first. It walks down once more, as a name's index needs the count first.
fn write_names(s: &State, list: &mut [u8], count: u32)
    requires { (count ≡ length (final_names s.now)) × (name_bytes * count ≤ length list.old) }
    ensures { list.new ≡ joined (final_names s.now) ++ drop (name_bytes * length (final_names s.now)) list.old }
{
    let mut p = s.kept;
    for k in (0..count as usize).rev() {
        let b = at(s, p);
        let from = NAME_BYTES * k;
        list[from..from + NAME_BYTES].copy_from_slice(&b.name);
        p = lower(b.parent, p);
    }
}

// The final list of a state that is known to be well shaped; "3 for too little room, nothing written".
pub fn final_list_shaped(s: &Shaped<'_>, list: &mut [u8]) -> Result<u32, Answer>
    ensures answer { result ≡ answered (final_list s.now list.old).answer (final_list s.now list.old).count }
    ensures list { list.new ≡ (final_list s.now list.old).list }
{
    let count = final_count(s.state);
    if list.len() < NAME_BYTES * count as usize {
        return Err(Answer::Length);
    }
    write_names(s.state, list, count);
    Ok(count)
}

// "1 for a badly shaped state, 3 for too little room, nothing written. A torn state can be read."
pub fn final_list(s: &State, list: &mut [u8]) -> Result<u32, Answer>
    ensures answer { result ≡ answered (final_list s.now list.old).answer (final_list s.now list.old).count }
    ensures list { list.new ≡ (final_list s.now list.old).list }
{
    let Some(shaped) = Shaped::new(s) else {
        return Err(Answer::State);
    };
    final_list_shaped(&shaped, list)
}
