// How a job is refused, without samples and with: its sizes, lengths, limits and tables in the order of docs/SCOPE.md.
// Every check takes what a stranger wrote, where the groups of rules before it have passed: no sum or product in it can wrap.
#![tactic(auto)]

ghost use Rattle.std.specs.Prelude.{◌≡◌, ◌*◌, length};
ghost use Rattle.answer.specs.Refusals.{refusal_of};
ghost use Rattle.answer.specs.Rules.{answer};
ghost use Rattle.job.specs.Checks.{tables, place_rules, form_rules, plain_answer, sampled_form_rules, sampled_answer};
ghost use Rattle.job.specs.Job.{job_in};

use answer::Refusal;
use job::Job;

const MOST_TILE_COLOURS: usize = 16384;

const MOST_SAMPLES: usize = 16384;

// Weight, tiles and counts of a job whose slices have their lengths.
pub fn check_tables(job: &Job) -> Result<(), Refusal>
    requires { length job.now.tiles.now ≡ 2 * job.now.sizes.t }
    ensures { refusal_of result ≡ answer (tables (job_in job.now)) }
{
    if !job_limits::weight_fits(job.sizes.weight) {
        return Err(Refusal::Weight);
    }
    let total = job.counts.len();
    if total > MOST_TILE_COLOURS {
        return Err(Refusal::Tiles);
    }
    if !job_tables::tiles_fit(job, total) {
        return Err(Refusal::Tiles);
    }
    if !job_tables::counts_fit(job) {
        return Err(Refusal::Counts);
    }
    Ok(())
}

// Components and samples of a call with n samples.
pub fn check_places(job: &Job, samples: &[u32]) -> Result<(), Refusal>
    requires { (length job.now.tiles.now ≡ 2 * job.now.sizes.t) × (length samples.now ≡ 2 * job.now.sizes.n) }
    ensures { refusal_of result ≡ answer (place_rules job.now.sizes.t job.now.tiles.now job.now.colours.now job.now.sizes.n samples.now) }
{
    if let Some(i) = job::bad_colour(0, job.colours, job::MOST_COMPONENT) {
        return Err(Refusal::Colour(i));
    }
    if !job_tables::samples_fit(job, samples) {
        return Err(Refusal::Samples);
    }
    Ok(())
}

// Sizes and lengths of a call without samples, whose palette has `palette` numbers. `room` says whether the call's own slices have their
// lengths.
fn check_form(job: &Job, palette: usize, room: bool) -> Result<(), Refusal>
    ensures { let J = job_in job.now in refusal_of result ≡ answer (form_rules J.size J.S J.C J.T J.tiles J.colours J.counts palette room) }
{
    job_limits::check_sizes(job.sizes)?;
    job_limits::check_shapes(job)?;
    if palette != 3 * (job.sizes.s * job.sizes.c) {
        return Err(Refusal::Lengths);
    }
    if !room {
        return Err(Refusal::Lengths);
    }
    Ok(())
}

// The first rule that a call without samples breaks.
pub fn check_job(job: &Job, palette: &[f32], room: bool) -> Result<(), Refusal>
    ensures { refusal_of result ≡ plain_answer (job_in job.now) palette.now room }
{
    check_form(job, palette.len(), room)?;
    check_tables(job)?;
    job_limits::check_bounds(job, palette)
}

// Sizes and lengths of a call with samples, for which `samples` numbers are lent, and that there are some.
fn check_sampled_form(job: &Job, samples: usize, room: bool) -> Result<(), Refusal>
    ensures { let J = job_in job.now in let n = job.now.sizes.n in
        refusal_of result ≡ answer (sampled_form_rules J.size J.S J.C J.T n J.tiles J.colours J.counts samples room) }
{
    job_limits::check_sizes(job.sizes)?;
    if job.sizes.n > MOST_SAMPLES {
        return Err(Refusal::Sizes);
    }
    job_limits::check_shapes(job)?;
    if samples != 2 * job.sizes.n {
        return Err(Refusal::Lengths);
    }
    if !room {
        return Err(Refusal::Lengths);
    }
    if job.sizes.n == 0 {
        return Err(Refusal::NoSamples);
    }
    Ok(())
}

// The first rule that a job with samples breaks.
pub fn check_sampled(job: &Job, samples: &[u32], room: bool) -> Result<(), Refusal>
    ensures { refusal_of result ≡ sampled_answer (job_in job.now) job.now.sizes.n samples.now room }
{
    check_sampled_form(job, samples.len(), room)?;
    check_tables(job)?;
    check_places(job, samples)
}
