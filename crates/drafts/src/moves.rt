// A draft from stage to stage.
ghost use Rattle.std.specs.Prelude.{◌≡◌, ◌^◌, ◌≤◌};
ghost use Rattle.drafts.specs.Steps.{staged, next_stage};

use crate::state::{Draft, Stage};

impl Draft {
    // The same draft at another stage.
    pub fn at(self, stage: Stage) -> Draft
        ensures { result ≡ staged self stage }
    {
        Draft { stage, ..self }
    }
}

// The stage once one more of n sectors is carried than the `done` before.
pub fn next_stage(n: u64, done: u32) -> Stage
    ensures { n ≤ 2 ^ 32 → result ≡ next_stage n done }
{
    match done.checked_add(1) {
        Some(next) if u64::from(next) < n => Stage::Begun(next),
        _ => Stage::Carried,
    }
}
