ghost use Rattle.std.specs.Prelude.{◌≡◌, ◌⊎◌, Ok, Err, MatchResult, option_copied};
ghost use Rattle.x86_syntax.specs.Decodes.{decoded};
ghost use Rattle.x86_machine.specs.Started.{started};
ghost use Rattle.x86_machine.specs.StepBy.{AtInstr, StepBy, fetched, import_outcome};
ghost use Rattle.x86_machine.specs.Taken.{Answers};

use crate::calls::call;
use crate::starting::start_cells;
use crate::{Outcome, StartFault, StartFile};
use arrayvec::ArrayVec;
use image_loader::Image;
use memory_map::{Choice, FaultKind, USER_END};
use statement_lang::{Cells, Ran, run_stmts};
use std::alloc::Global;
use std::marker::Model;
use stub_file::{Reply, Stub, Stubs};
use x86_decoder::{DecodeFault, decode};
use x86_lifter::lift;

/// A machine that runs an image, which contracts see as its `MachineState`.
#[derive(Drop)]
pub struct Machine {
    cells: Cells,
    alloc: Global,
}

impl Model for Machine {
    ghost use Rattle.memory_map.specs.State.{MachineState};

    ghost Value = { MachineState };

    ghost view = { λ m. m.cells };
}

impl Machine {
    /// The machine in the state that a start file states for an image, or the file's first fault.
    pub fn start(alloc: Global, image: &Image, start: &StartFile) -> Result<Machine, StartFault>
        ensures { MatchResult result (λ m. started image.now start.now ≡ Ok m) (λ fault. (fault ≡ StartFault.Memory) ⊎ (started image.now start.now ≡ Err fault)) }
    {
        let cells = start_cells(alloc, image, start)?;
        Ok(Machine { cells, alloc })
    }

    /// The address of the next instruction; takes no memory.
    pub fn eip(&self) -> u32
        ensures { result ≡ self.now.eip }
    {
        self.cells.eip()
    }

    /// The executable bytes at EIP, at most 15; takes no memory.
    #[tactic(auto, unfolding(crate::specs::StepBy::fetched))]
    pub fn fetch(&self) -> ArrayVec<u8, 15>
        ensures { result.items ≡ fetched self.now }
    {
        self.cells.fetch()
    }

    /// The state of the machine.
    pub fn cells(&self) -> &Cells
        ensures { result.now ≡ self.now }
    {
        &self.cells
    }

    /// Makes one step under a choice. Memory is taken for a block that an import hands out alone. On every outcome but
    /// `Stepped` the machine is as it was.
    pub fn step(&mut self, image: &Image, stubs: &Stubs, choice: &Choice) -> Outcome
        ensures { Answers (StepBy image.now stubs.now choice.now self.old) self.old result self.new }
    {
        let place = self.cells.eip();
        if place == USER_END {
            return Outcome::Exited;
        }
        match image.name_at(place) {
            Some(name) => import(&mut self.cells, self.alloc, stubs.find(name), choice),
            None => instruction(&mut self.cells, choice),
        }
    }
}

// The step of an import with this stub, or without one.
fn import(cells: &mut Cells, alloc: Global, stub: Option<&Stub>, choice: &Choice) -> Outcome
    ensures { Answers (λ end. end ≡ import_outcome (option_copied stub.entry) choice.now cells.old) cells.old result cells.new }
{
    let Some(stub) = stub else {
        return Outcome::NoStub;
    };
    match stub.reply {
        Reply::Never => Outcome::Exited,
        _ => call(cells, alloc, stub, choice),
    }
}

// The step of the instruction at EIP.
fn instruction(cells: &mut Cells, choice: &Choice) -> Outcome
    ensures { Answers (AtInstr (decoded (fetched cells.old)) choice.now cells.old (fetched cells.old)) cells.old result cells.new }
{
    let bytes = cells.fetch();
    match decode(bytes.as_slice()) {
        Ok((i, len)) => match run_stmts(&lift(cells.eip(), &i, len), cells, choice) {
            Ran::Next => Outcome::Stepped,
            Ran::Faulted(kind) => Outcome::Faulted(kind),
        },
        Err(DecodeFault::Truncated) => Outcome::Faulted(FaultKind::Fetch),
        Err(DecodeFault::NotListed { .. }) => Outcome::NotListed,
        Err(DecodeFault::TooLong) => Outcome::NotListed,
    }
}
