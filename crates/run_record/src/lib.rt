// What the words of a record say by themselves: their names, what a stage does, its rounds and their draws.
#![tactic(auto)]

ghost use Rattle.std.specs.Prelude.{◌≡◌, ◌&&◌, ltb, length};
ghost use Rattle.run_stages.specs.State.{draws, stops};
ghost use Rattle.run_stages.specs.Record.{stage_with, stage_of, sizes_word};
ghost use Rattle.run_stages.specs.Calls.{record_of, record_words};
ghost use Rattle.run_record.specs.Sized.{plain, Sized};

use job::Sizes;
use run_stages::{Line, Record, Stage};

// The record's words by name.
pub fn record_of(words: &[u64]) -> Record
    requires { length words.now ≡ record_words }
    ensures { result ≡ record_of words.now }
{
    Record {
        generator: words[0],
        stage: words[1],
        rounds: words[2],
        left: words[3],
        made: words[4],
        error: words[5],
        sizes: words[6],
    }
}

// The job's sizes in one word: S, C, T and n in 16 bits each, most significant first.
#[tactic(auto, unfolding(run_stages::specs::Record::packed))]
pub fn sizes_word(z: Sizes) -> u64
    requires { Sized z }
    ensures { result ≡ sizes_word (plain z) }
{
    let s = z.s as u64 * 0x1_0000_0000_0000;
    let c = z.c as u64 * 0x1_0000_0000;
    let t = z.t as u64 * 0x1_0000;
    s + c + t + z.n as u64
}

// Whether a stage makes draws. Here and below a stage is the number that a record has: a stranger may have written any.
pub fn makes_draws(stage: u64) -> bool
    ensures { result ≡ draws stage }
{
    matches!(
        Stage::try_from(stage),
        Ok(Stage::Seeding | Stage::Growing | Stage::Replacing | Stage::FinalDraws)
    )
}

// Whether a stage waits for reduced colours.
pub fn is_stop(stage: u64) -> bool
    ensures { result ≡ stops stage }
{
    matches!(
        Stage::try_from(stage),
        Ok(Stage::Reducing | Stage::Refining | Stage::Refined)
    )
}

// A stage's line in the table of the stages.
#[tactic(auto, unfolding(run_stages::specs::Record::stage_of, run_stages::specs::State::beside))]
pub fn stage_of(z: Sizes, stage: u64) -> Line
    requires { Sized z }
    ensures { result ≡ stage_of (plain z) stage }
{
    let b = cycle::base_iterations(z.n);
    let seeding = z.s as u64 - 1;
    let growing = z.c as u64 - 1;
    let both = z.s as u64 + z.c as u64;
    let seeded = seeding * b;
    let grown = (seeding + growing) * b;
    let replaced = (both + 8) * b;
    let ended = (both + 18) * b;
    match Stage::try_from(stage) {
        Ok(Stage::Seeding) => line(seeding, b, 0),
        Ok(Stage::Growing) => line(growing, b, seeded),
        Ok(Stage::Replacing) => line(10, b, grown),
        Ok(Stage::Reducing) => line(0, 0, replaced),
        Ok(Stage::FinalDraws) => line(1, 10 * b, replaced),
        _ => line(0, 0, ended),
    }
}

// A line of that table.
fn line(rounds: u64, each: u64, before: u64) -> Line
    ensures { result ≡ stage_with rounds each before }
{
    Line {
        rounds,
        each,
        before,
    }
}

// Whether one more draw is allotted, and the stage makes it.
pub fn goes_on(drawn: u64, allotment: u64, stage: u64) -> bool
    ensures { result ≡ (ltb drawn allotment && draws stage) }
{
    drawn < allotment && makes_draws(stage)
}
