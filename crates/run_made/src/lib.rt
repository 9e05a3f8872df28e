// The record's rules: the job's sizes, its place, the draws made that the place implies, its error.
// They take what a stranger wrote: no sum or product in them can wrap.
#![tactic(auto)]

ghost use Rattle.std.specs.Prelude.{◌≡◌, true};
ghost use Rattle.answer.specs.Refusals.{refusal_of};
ghost use Rattle.answer.specs.Rules.{answer};
ghost use Rattle.run_stages.specs.Record.{place_fits, made_by, record_rules};
ghost use Rattle.run_record.specs.Sized.{plain, Sized};

use answer::Refusal;
use job::Sizes;
use run_stages::Record;

// Word 4, from words 1 to 3 of a record whose place fits.
fn made_by(z: Sizes, r: Record) -> u64
    requires { Sized z × (place_fits (plain z) r.stage r.rounds r.left ≡ true) }
    ensures { result ≡ made_by (plain z) r.stage r.rounds r.left }
{
    let line = run_record::stage_of(z, r.stage);
    if !run_record::makes_draws(r.stage) {
        return line.before;
    }
    let b = cycle::base_iterations(z.n);
    line.before + r.rounds * b + (line.each - r.left)
}

// Number 20 or 10, or nothing.
pub fn check_record(z: Sizes, r: Record) -> Result<(), Refusal>
    requires { Sized z }
    ensures { refusal_of result ≡ answer (record_rules (plain z) r) }
{
    let sizes = run_record::sizes_word(z);
    let ours = r.sizes == sizes;
    let placed = run_place::place_fits(z, r);
    if !ours {
        return Err(Refusal::OtherSizes); // word 6
    }
    if !placed {
        return Err(Refusal::Record); // words 1 to 3
    }
    if r.made != made_by(z, r) {
        return Err(Refusal::Record); // word 4
    }
    if !run_place::error_fits(r) {
        return Err(Refusal::Record); // word 5
    }
    Ok(())
}
