// The rounds of a run up to the stop for reduction, counted in one: of seeding, until all subpalettes are there; of growing, where each gets
// a colour more, until it has all of its own; of replacing.
// The order of the samples is not touched, so it is left out.
#![tactic(auto)]

use job::{Job, Sizes};

mod replacing;

ghost use Rattle.std.specs.Prelude.{◌≡◌, []};
ghost use Rattle.job.specs.Job.{job_in};
ghost use Rattle.quantizer.specs.Course.{unsampled};
ghost use Rattle.run_stages.specs.State.{state_with};
ghost use Rattle.run_stages.specs.Stages.{open_seeding, open_growing};
ghost use Rattle.run_record.specs.Sized.{plain};
ghost use Rattle.run_turns.specs.Asked.{Doubling, Opening, Turning};
ghost use Rattle.run_turns.specs.Rounds.{open_turn};

use run_stages::{Record, Stage};

// A subpalette more, a copy of subpalette `from`, and a round of draws begins.
fn open_seeding(z: Sizes, palette: &mut [f32], round: u64, from: usize, r: Record) -> Record
    requires { Doubling z.s z.c palette.old round from }
    ensures { state_with [] [] palette.new [] result ≡ open_seeding (plain z) round from (state_with [] [] palette.old [] r) }
{
    let have = round as usize + 1;
    palette_edit::duplicate_palette(palette, z.c, 1, have, from);
    run_next::open_round(r, Stage::Seeding, round, z.n)
}

// A colour more in each subpalette, and a round of draws begins.
fn open_growing(job: &Job, hints: &mut [u32], palette: &mut [f32], round: u64, r: Record) -> Record
    requires { Opening (job_in job.now) palette.old round hints.old }
    ensures { state_with [] hints.new palette.new [] result
        ≡ open_growing (unsampled job.now) round
        (state_with [] hints.old palette.old [] r) }
{
    let have = round as usize + 1;
    quantizer_grow::grow_palette(job, palette, have, hints);
    run_next::open_round(r, Stage::Growing, round, job.sizes.n)
}

// A turn: the next round in that count. One of seeding copies subpalette `from`.
pub fn open_turn(
    job: &Job,
    hints: &mut [u32],
    palette: &mut [f32],
    least: &mut [f32],
    turn: u64,
    from: usize,
    r: Record,
) -> Record
    requires { Turning (job_in job.now) hints.old palette.old least.old turn from r }
    ensures { state_with [] hints.new palette.new least.new result
        ≡ open_turn (unsampled job.now) turn from
        (state_with [] hints.old palette.old least.old r) }
{
    let seeded = job.sizes.s as u64 - 1;
    if turn < seeded {
        return open_seeding(job.sizes, palette, turn, from, r);
    }
    let later = turn - seeded;
    let grown = job.sizes.c as u64 - 1;
    if later < grown {
        return open_growing(job, hints, palette, later, r);
    }
    replacing::replace_on(job, hints, palette, least, later - grown, r)
}
