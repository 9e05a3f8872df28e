// What follows in the record of a run: whether a round is to be closed, a round opened, the final draws ended.
#![tactic(auto)]

ghost use Rattle.std.specs.Prelude.{◌≡◌, ◌&&◌, ◌/◌, eqb};
ghost use Rattle.run_stages.specs.State.{placed, draws};
ghost use Rattle.run_stages.specs.Named.{number_of};

use run_stages::{Record, Stage};

// Whether a round is to be closed.
pub fn is_due(r: Record) -> bool
    ensures { result ≡ (draws r.stage && eqb r.left 0) }
{
    run_record::makes_draws(r.stage) && r.left == 0
}

// A round of a tenth of the n samples begins.
pub fn open_round(r: Record, stage: Stage, round: u64, n: usize) -> Record
    ensures { result ≡ placed r (number_of stage) round (n / 10) }
{
    r.placed(stage as u64, round, cycle::base_iterations(n))
}

// The final draws are one round; the next stop follows.
pub fn end_final(r: Record) -> Record
    ensures { result ≡ placed r 5 0 0 }
{
    r.placed(Stage::Refining as u64, 0, 0)
}
