// The run, stage by stage, its record and its four calls, as definitions: specs/ holds them. The functions stand in the crates above.
// Here is only what they share: the record, and the stages by name.
#![tactic(auto)]

ghost use Rattle.std.specs.Prelude.{◌≡◌};
ghost use Rattle.run_stages.specs.State.{placed, noted};
ghost use Rattle.run_stages.specs.Named.{Names};

// The record's words by name: generator state, stage, rounds finished in the stage, draws left in the round, draws made, the bits of
// the least error, and the job's sizes.
#[derive(Clone, Copy)]
pub struct Record {
    pub generator: u64,
    pub stage: u64,
    pub rounds: u64,
    pub left: u64,
    pub made: u64,
    pub error: u64,
    pub sizes: u64,
}

// So many words a record has.
pub const RECORD_WORDS: usize = 7;

// The stages of a run by name, in the order of their numbers. A record keeps the number, which a stranger may have written.
#[derive(Clone, Copy, PartialEq, Eq)]
pub enum Stage {
    Seeding,
    Growing,
    Replacing,
    // a stop for reduction; the final draws follow
    Reducing,
    FinalDraws,
    // a stop for reduction; the refinements follow
    Refining,
    // the last stop for reduction
    Refined,
    Finished,
}

// A number that no stage has.
#[derive(Clone, Copy, PartialEq, Eq)]
pub struct NoStage(pub u64);

impl TryFrom<u64> for Stage {
    type Error = NoStage;

    ghost try_from_gives = { Names };

    fn try_from(stage: u64) -> Result<Self, NoStage> {
        match stage {
            0 => Ok(Stage::Seeding),
            1 => Ok(Stage::Growing),
            2 => Ok(Stage::Replacing),
            3 => Ok(Stage::Reducing),
            4 => Ok(Stage::FinalDraws),
            5 => Ok(Stage::Refining),
            6 => Ok(Stage::Refined),
            7 => Ok(Stage::Finished),
            _ => Err(NoStage(stage)),
        }
    }
}

impl Record {
    // The record at another place; the stage is its number, as in the record.
    pub fn placed(mut self, stage: u64, rounds: u64, left: u64) -> Self
        ensures { result ≡ placed self stage rounds left }
    {
        self.stage = stage;
        self.rounds = rounds;
        self.left = left;
        self
    }

    // The record with another error.
    pub fn noted(mut self, error: u64) -> Self
        ensures { result ≡ noted self error }
    {
        self.error = error;
        self
    }
}

// A stage's line in the table of the stages: its rounds, the draws in one of them, and the draws made before it.
#[derive(Drop)]
pub struct Line {
    pub rounds: u64,
    pub each: u64,
    pub before: u64,
}
