// What gateway firmware calls: a run of records and the relation of two final lists, on numbers and byte slices alone.
// It relies on `node` for the step and on `lists` for reading out.

#![tactic(auto)]

mod runs;

ghost use Rattle.std.specs.Prelude.{◌≡◌};
ghost use Rattle.pala.specs.Lists.{relation, relation_code};
ghost use Rattle.pala.specs.Run.{Ran, run};

use runs::{code, run};

// "A run: n, own number, a slice of records one after the other, a list buffer."
#[unsafe(no_mangle)]
pub extern "C" fn oanhvidet_run(n: u32, own: u32, records: &[u8], list: &mut [u8]) -> u64
    ensures { ◌≡◌ {A = Ran} (record { code = result; list = list.new }) (run n own records.now list.old) }
{
    code(run(n, own, records, list))
}

// "The relation reaches C as relation x 2^60 + index."
#[unsafe(no_mangle)]
pub extern "C" fn oanhvidet_relation(a: &[u8], b: &[u8]) -> u64
    ensures { result ≡ relation_code (relation a.now b.now) }
{
    lists::relations::code(a, b)
}
