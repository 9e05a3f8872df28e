// The second palette keeps the first one of least error: the first of its stage at once, a later one where its error is below the one kept.
// The stop for reduction gives it back. The order of the samples is not touched, so it is left out.
#![tactic(auto)]

ghost use Rattle.std.specs.Prelude.{◌≡◌, ◌≢◌, [], ◌<◌};
ghost use Rattle.job.specs.Job.{job_in};
ghost use Rattle.quantizer.specs.Course.{unsampled};
ghost use Rattle.run_stages.specs.State.{state_with};
ghost use Rattle.run_stages.specs.Stages.{enter_reducing};
ghost use Rattle.run_record.specs.Sized.{plain};
ghost use Rattle.run_keeping.specs.Keeping.{keeps, seen};
ghost use Rattle.run_keeping.specs.Closing.{Judging, Ending};

use job::{Job, Sizes};
use run_stages::{Record, Stage};

// Whether a palette of error `e` is kept in a round, where the one kept has an error of these bits: the first of equal errors stays.
#[tactic(auto, unfolding(crate::specs::Keeping::keeps))]
fn is_kept(round: u64, e: f32, error: u64) -> bool
    requires { round ≢ 0 → error < 0x7f800000 }
    ensures { result ≡ keeps round e error }
{
    round == 0 || e < f32::from_bits(error as u32)
}

// The palette is seen at the start of a round of replacing: it is kept, with its error's bits, or passed by.
pub fn look(
    job: &Job,
    hints: &mut [u32],
    palette: &[f32],
    least: &mut [f32],
    round: u64,
    r: Record,
) -> Record
    requires { Judging (job_in job.now) hints.old palette.now least.old round r }
    ensures { state_with [] hints.new palette.now least.new result
        ≡ seen (unsampled job.now) round
        (state_with [] hints.old palette.now least.old r) }
{
    let e = palette_mse_sum::mse(job, palette, job.sizes.s, job.sizes.c, hints);
    if is_kept(round, e, r.error) {
        run_memory::copy(palette, least);
        return r.noted(f32::to_bits(e) as u64);
    }
    r
}

// The stop for reduction: the palette kept is the palette, and the second one is zeroed.
pub fn enter_reducing(z: Sizes, palette: &mut [f32], least: &mut [f32], r: Record) -> Record
    requires { Ending z.s z.c palette.old least.old }
    ensures { state_with [] [] palette.new least.new result ≡ enter_reducing (plain z) (state_with [] [] palette.old least.old r) }
{
    run_memory::copy(least, palette);
    run_memory::zero(least);
    r.noted(0).placed(Stage::Reducing as u64, 0, 0)
}
