// What a run holds is answered: its record, its working colours, its order.
// Assumes nothing of them but sizes within their limits: they are what a stranger wrote.
#![tactic(auto)]

ghost use Rattle.std.specs.Prelude.{◌≡◌, []};
ghost use Rattle.answer.specs.Refusals.{refusal_of};
ghost use Rattle.answer.specs.Rules.{answer};
ghost use Rattle.run_stages.specs.State.{state_with};
ghost use Rattle.run_stages.specs.Record.{state_rules};
ghost use Rattle.run_record.specs.Sized.{plain, Sized};

use answer::Refusal;
use job::Sizes;
use run_stages::Record;

// Numbers 20, 10, 16 and 9 of what a run holds.
pub fn check_state(
    z: Sizes,
    order: &[u32],
    palette: &[f32],
    least: &[f32],
    r: Record,
) -> Result<(), Refusal>
    requires { Sized z }
    ensures { refusal_of result ≡ answer (state_rules (plain z) (state_with order.now [] palette.now least.now r)) }
{
    run_made::check_record(z, r)?;
    run_working::check_working(z.s * z.c, r.stage, palette, least)?;
    if !run_working::order_fits(z.n, order) {
        return Err(Refusal::Order);
    }
    Ok(())
}
