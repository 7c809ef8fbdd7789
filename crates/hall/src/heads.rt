// "A two-byte head gives n (1 to 8) and the set of honest nodes, lowest bit for node 0".

ghost use Rattle.std.specs.Prelude.{◌≡◌, ◌/◌, ◌%◌, ◌^◌, map, eqb, Some, None};
ghost use Rattle.table.specs.Scan.{pick};
ghost use Rattle.pala.specs.Step.{start};
ghost use Rattle.accord.specs.Head.{Opened, fresh_hall, gateways, good_head, opened};

use crate::seats::none_from;
use accord::{GATEWAYS, Hall, MOST_GATEWAYS};
use node::start;
use std::array;
use table::states::all_zero;
use table::{Answer, State};

// What a head hands back, an answer and a hall also where it is refused: the clause of `open` has `no_hall` there.
#[derive(Clone, Copy)]
pub struct Opening {
    pub answer: Answer,
    pub hall: Hall,
}

// "the set of honest nodes, lowest bit for node 0"
fn honest_of(set: u8) -> [bool; GATEWAYS]
    ensures { result ≡ map (λ i. eqb (set / 2 ^ i % 2) 1) gateways }
{
    array::from_fn(|i| set >> i & 1 == 1)
}

// The gateways started fresh, each under its own number.
fn started(n: u32) -> [State; GATEWAYS]
    ensures { result ≡ map (λ i. (start n i).state) gateways }
{
    array::from_fn(|i| start(n, i as u32).state)
}

// The hall of a good head.
fn fresh_hall(head: &[u8]) -> Option<Hall>
    ensures { result ≡ pick (good_head head.now) (Some (fresh_hall head.now)) None }
{
    let [n, set, ..] = *head else {
        return None;
    };
    let n = u32::from(n);
    let honest = honest_of(set);
    // The tests are `hall_shaped`'s but for the states: there of a hall, here of a head, by two definitions.
    if n < 1 || MOST_GATEWAYS < n || !none_from(&honest, n as usize) {
        return None;
    }
    Some(Hall {
        states: started(n),
        honest,
        n,
    })
}

// "15 a head with another n, with a bit at or above n, or cut short", and nothing is played
pub fn open(head: &[u8]) -> Opening
    ensures { ◌≡◌ {A = Opened} (record { answer = result.answer; hall = result.hall }) (opened head.now) }
{
    match fresh_hall(head) {
        Some(hall) => Opening {
            answer: Answer::Taken,
            hall,
        },
        None => Opening {
            answer: Answer::Setup,
            hall: Hall {
                states: [all_zero(); GATEWAYS],
                honest: [false; GATEWAYS],
                n: 0,
            },
        },
    }
}
