// What a record's stage says: whether the run is finished; of a draw, what is present and how far a colour moves.
// And the cycle that the record drives, and the record after a draw.
#![tactic(auto)]

ghost use Rattle.std.specs.Prelude.{◌≡◌, [], ◌≤◌, eqb};
ghost use Rattle.prng.specs.Shuffle.{deck};
ghost use Rattle.cycle.specs.Cycle.{cycle};
ghost use Rattle.run_stages.specs.State.{counted};
ghost use Rattle.run_stages.specs.Stages.{cycle_of, subs_of, have_of, alpha_of};

use cycle::SampleCycle;
use prng::Prng;
use run_stages::{Record, Stage};

// How far a colour moves: 0.3, at the final draws 0.5.
const NUDGE: f32 = 0.3;

const LAST_NUDGE: f32 = 0.5;

// Whether the run is finished: it has a result.
pub fn is_finished(stage: u64) -> bool
    ensures { result ≡ eqb stage 7 }
{
    matches!(Stage::try_from(stage), Ok(Stage::Finished))
}

// The subpalettes present.
#[tactic(auto, unfolding(run_stages::specs::Stages::subs_of))]
pub fn subs_of(s: usize, r: Record) -> usize
    requires { r.rounds ≤ 16 }
    ensures { result ≡ subs_of s r }
{
    match Stage::try_from(r.stage) {
        Ok(Stage::Seeding) => r.rounds as usize + 2,
        _ => s,
    }
}

// The colours of each that are present.
#[tactic(auto, unfolding(run_stages::specs::Stages::have_of))]
pub fn have_of(c: usize, r: Record) -> usize
    requires { r.rounds ≤ 16 }
    ensures { result ≡ have_of c r }
{
    match Stage::try_from(r.stage) {
        Ok(Stage::Seeding) => 1,
        Ok(Stage::Growing) => r.rounds as usize + 2,
        _ => c,
    }
}

#[tactic(auto, unfolding(run_stages::specs::Stages::alpha_of))]
pub fn alpha_of(r: Record) -> f32
    ensures { result ≡ alpha_of r }
{
    match Stage::try_from(r.stage) {
        Ok(Stage::FinalDraws) => LAST_NUDGE,
        _ => NUDGE,
    }
}

// The cycle of samples, without its order.
pub fn cycle_of(r: Record) -> SampleCycle
    ensures { cycle (deck [] result.prng.state) result.made ≡ cycle_of [] r }
{
    let prng = Prng { state: r.generator };
    SampleCycle { prng, made: r.made }
}

// The record with one draw less left, and with the cycle after it.
pub fn count_draw(mut r: Record, after: SampleCycle) -> Record
    requires { 1 ≤ r.left }
    ensures { result ≡ counted r after.prng.state after.made }
{
    r.generator = after.prng.state;
    r.left -= 1;
    r.made = after.made;
    r
}
