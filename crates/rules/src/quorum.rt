// "Quorum: the least q with 3q at least 2n". Nothing else asks for it.

ghost use Rattle.std.specs.Prelude.{◌≡◌, leb};
ghost use Rattle.pala.specs.Counts.{quorum};

// The site card: "three times the votes, at least twice the nodes". In 64 bits no product wraps.
pub fn enough(votes: u32, n: u32) -> bool
    ensures { result ≡ leb (quorum n) votes }
{
    let votes = u64::from(votes);
    let nodes = u64::from(n);
    3 * votes >= 2 * nodes
}
