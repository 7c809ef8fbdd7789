// "Answer numbers".

ghost use Rattle.std.specs.Prelude.{◌≡◌};
ghost use Rattle.pala.specs.Answers.{number, taken};

use table::Answer;

// The number of each answer, which the type has from 01.
#[tactic(auto, using(crate::proofs::Numbers::tag_number))]
pub fn number_of(answer: Answer) -> u32
    ensures { result ≡ number answer }
{
    answer as u32
}

// Is it 0.
#[tactic(auto, using(crate::proofs::Numbers::tag_number), unfolding(pala::specs::Answers::taken))]
pub fn is_taken(answer: Answer) -> bool
    ensures { result ≡ taken answer }
{
    answer == Answer::Taken
}
