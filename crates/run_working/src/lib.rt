// The working colours and the order of a run, held to their limits: they are what a stranger wrote.
#![tactic(auto)]

ghost use Rattle.std.specs.Prelude.{◌≡◌, ◌*◌, ◌≤◌};
ghost use Rattle.answer.specs.Refusals.{refusal_of};
ghost use Rattle.answer.specs.Rules.{answer};
ghost use Rattle.job.specs.Job.{most_subpalettes, most_colours};
ghost use Rattle.run_stages.specs.Record.{order_fits, working_rules};

use answer::Refusal;
use run_stages::Stage;

// The magnitude of a working component, at most.
const MOST_WORKING: f32 = 4.0;

// Each entry is below n.
pub fn order_fits(n: usize, order: &[u32]) -> bool
    ensures { result ≡ order_fits n order.now }
{
    order.iter().all(|entry| job::wide(*entry) < n)
}

// Number 16: the colours of the first palette, then in stage 2 those of the second, which go on counting from `cells`.
pub fn check_working(
    cells: usize,
    stage: u64,
    palette: &[f32],
    least: &[f32],
) -> Result<(), Refusal>
    requires { cells ≤ most_subpalettes * most_colours }
    ensures { refusal_of result ≡ answer (working_rules cells stage palette.now least.now) }
{
    if let Some(i) = job::bad_colour(0, palette, MOST_WORKING) {
        return Err(Refusal::WorkingColour(i));
    }
    if !matches!(Stage::try_from(stage), Ok(Stage::Replacing)) {
        return Ok(());
    }
    if let Some(i) = job::bad_colour(cells, least, MOST_WORKING) {
        return Err(Refusal::WorkingColour(i));
    }
    Ok(())
}
