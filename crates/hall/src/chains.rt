// The final lists of the honest gateways, and "whether of any two honest final lists one begins the other".

ghost use Rattle.std.specs.Prelude.{◌≤◌, ◌≡◌, take};
ghost use Rattle.pala.specs.Lists.{final_names, joined};
ghost use Rattle.pala.specs.Run.{full_list};
ghost use Rattle.accord.specs.Words.{agree, one_begins};

use crate::seats::ShapedHall;
use accord::GATEWAYS;
use lists::finals::{LIST_BYTES, final_list_shaped};
use shape::shaped::Shaped;
use table::NAME_BYTES;

// A final list: its names' bytes, at the start of a room for the longest. No heap: a room, and how much of it is used.
#[derive(Clone, Copy)]
struct List {
    room: [u8; LIST_BYTES],
    length: usize,
    ghost within: { length ≤ full_list },
}

impl List {
    fn empty() -> Self
        ensures { result.length ≡ 0 }
    {
        List {
            room: [0; LIST_BYTES],
            length: 0,
        }
    }

    // The list of a state; its room is never too little.
    fn of(s: &Shaped<'_>) -> Self
        ensures { take result.length result.room ≡ joined (final_names s.now) }
    {
        // Read for the proof: it tells that the state is well shaped.
        let _ = &s.state;
        let mut room = [0; LIST_BYTES];
        let count = final_list_shaped(s, &mut room).unwrap();
        List {
            room,
            length: NAME_BYTES * count as usize,
        }
    }

    fn names(&self) -> &[u8]
        ensures { result.now ≡ take self.now.length self.now.room }
    {
        &self.room[..self.length]
    }
}

// "one begins the other"
fn one_begins(a: &[u8], b: &[u8]) -> bool
    ensures { result ≡ one_begins a.now b.now }
{
    b.starts_with(a) || a.starts_with(b)
}

// "whether of any two honest final lists one begins the other": each and the longest of those before it, which is carried along: so a loop and no `all`.
pub fn agree(h: &ShapedHall<'_>) -> bool
    ensures { result ≡ agree h.now }
{
    let mut longest = List::empty();
    for i in 0..GATEWAYS {
        if let Some(s) = h.honest(i) {
            let list = List::of(&s);
            let names = list.names();
            let most = longest.names();
            if !one_begins(names, most) {
                return false;
            }
            if most.len() < names.len() {
                longest = list;
            }
        }
    }
    true
}
