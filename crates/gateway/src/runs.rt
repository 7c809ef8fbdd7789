// A run: "each 96-byte stretch is used where it stands".

ghost use Rattle.std.specs.Prelude.{ℕ, ◌≡◌, true};
ghost use Rattle.table.specs.Scan.{pick};
ghost use Rattle.pala.specs.Answers.{answered, taken};
ghost use Rattle.pala.specs.Lists.{final_list};
ghost use Rattle.pala.specs.Run.{played, run, run_answer, run_code, stretches};
ghost use Rattle.pala.specs.Shape.{well_shaped};
ghost use Rattle.pala.specs.Step.{start};

use lists::finals::{LIST_BYTES, final_list_shaped};
use node::answers::{is_taken, number_of};
use node::{decide_shaped, start, take_shaped};
use record::RECORD_BYTES;
use shape::shaped::Shaped;
use table::{Answer, State};

// "list buffer under 2,048 bytes": the room for the names of a full table.
const FULL_LIST: usize = LIST_BYTES;

// "refusal x 65,536"
const REFUSAL: u64 = 65536;

// Every record is put to the newest state: "Refused records are passed over".
// It changes the state, so the shape is a condition, as `take_shaped`'s.
fn play(s: &mut State, records: &[u8])
    requires { well_shaped s.old ≡ true }
    ensures state { s.new ≡ played s.old (stretches records.now) }
    ensures shaped { well_shaped s.new ≡ true }
{
    for rec in records.chunks(RECORD_BYTES) {
        let d = decide_shaped(&Shaped { state: s }, rec);
        take_shaped(s, &d);
    }
}

// 3 before 15, "then count 0 and nothing written"; else the final list of the last state.
pub fn run(n: u32, own: u32, records: &[u8], list: &mut [u8]) -> Result<u32, Answer>
    ensures answer { result ≡ answered (run_answer n own records.now list.old) (final_list (played (start n own).state (stretches records.now)) list.old).count }
    ensures list { list.new ≡ (run n own records.now list.old).list }
{
    if records.len() % RECORD_BYTES != 0 || list.len() < FULL_LIST {
        return Err(Answer::Length);
    }
    // A start hands back a state either way, so its answer is asked for.
    let reply = start(n, own);
    if !is_taken(reply.answer) {
        return Err(reply.answer);
    }
    let mut s = reply.state;
    play(&mut s, records);
    final_list_shaped(&Shaped { state: &s }, list)
}

// "The answer is refusal x 65,536 + count of final names."
pub fn code(ran: Result<u32, Answer>) -> u64
    ensures { (a : Answer) (held : ℕ) → ran ≡ answered a held → result ≡ run_code a (pick (taken a) held 0) }
{
    match ran {
        Ok(count) => u64::from(count),
        Err(refusal) => REFUSAL * u64::from(number_of(refusal)),
    }
}
