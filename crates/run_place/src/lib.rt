// The record's words that a rule holds to their stage: its place, words 1 to 3, and the error, word 5.
// They take what a stranger wrote.
#![tactic(auto)]

ghost use Rattle.std.specs.Prelude.{◌≡◌};
ghost use Rattle.run_stages.specs.Record.{error_fits, place_fits};
ghost use Rattle.run_record.specs.Sized.{plain, Sized};

use job::Sizes;
use run_stages::{Record, Stage};

// Words 1 to 3.
#[tactic(auto, unfolding(run_stages::specs::Record::place_fits))]
pub fn place_fits(z: Sizes, r: Record) -> bool
    requires { Sized z }
    ensures { result ≡ place_fits (plain z) r.stage r.rounds r.left }
{
    if Stage::try_from(r.stage).is_err() {
        return false;
    }
    if run_record::makes_draws(r.stage) {
        let line = run_record::stage_of(z, r.stage);
        return r.rounds < line.rounds && 1 <= r.left && r.left <= line.each;
    }
    r.rounds == 0 && r.left == 0
}

// Word 5: bits of a finite f32 with the sign bit clear in stage 2, else 0.
#[tactic(auto, unfolding(run_stages::specs::Record::error_fits))]
pub fn error_fits(r: Record) -> bool
    ensures { result ≡ error_fits r.stage r.error }
{
    match Stage::try_from(r.stage) {
        Ok(Stage::Replacing) => r.error < 0x7f80_0000,
        _ => r.error == 0,
    }
}
