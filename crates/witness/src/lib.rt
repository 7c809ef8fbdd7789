// Two concrete runs, and nothing that runs: that demand 3's premises can be met, and that exactly a third faulty is too many.
// It relies on `pala` alone. It stands by itself because it computes for long and no rule is told here.

#![tactic(auto)]
