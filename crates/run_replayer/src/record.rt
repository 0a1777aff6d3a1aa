ghost use Rattle.std.specs.Prelude.{◌≡◌, length};

use memory_map::{Choice, Items};
use x86_machine::StartFile;

/// What ended a recorded run.
#[derive(Clone, Copy, Debug, PartialEq, Eq)]
pub enum EndWord {
    /// As many steps were made as were asked for.
    Steps,
    Exited,
    Faulted,
    NotListed,
    NoStub,
    BadChoice,
}

/// A step of a recorded run: where it began, where it led, and its whole choice, also what the step ignored.
#[derive(Drop)]
pub struct RunStep {
    pub from: u32,
    pub to: u32,
    pub choice: Choice,
}

/// A recorded run: where it began, its steps in their order, and what ended it.
#[derive(Drop)]
pub struct RunRecord {
    pub start: StartFile,
    pub steps: Items<RunStep>,
    pub end: EndWord,
    // The choices stand in the steps.
    ghost no_choices: { length start.choices ≡ 0 },
}
