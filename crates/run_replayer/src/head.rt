ghost use Rattle.std.specs.Prelude.{◌≡◌, Err, Ok, IfOk, MatchResult, OnOk};
ghost use Rattle.text_fields.specs.Lines.{fields};
ghost use Rattle.run_replayer.specs.Grammar.{IsStartOf, bases_step, behind, flags_step, head_step, header_step, no_head, regs_step, with_fill, with_head_fill};

use crate::fields::{bases_of, regs_of, six_flags_of};
use crate::growing::Growing;
use crate::six_flags::SixFlags;
use memory_map::{Choice, Fill, Items};
use std::alloc::{AllocError, Global};
use text_fields::{FIELD, Fields, HEADER, WORD};
use x86_machine::StartFile;

/// Which line of a start file or a run record is due.
#[derive(Clone, Copy, Debug, PartialEq, Eq)]
pub enum Due {
    Header,
    Regs,
    Flags,
    Bases,
    /// A fill, a choice or a step, or the end.
    Rest,
}

/// What the lines with which a start file and a run record both begin have stated so far.
#[derive(Drop)]
pub struct Head {
    pub due: Due,
    pub regs: [u32; 8],
    pub flags: SixFlags,
    pub fs: u32,
    pub gs: u32,
    pub fill: Growing<Fill>,
}

// The fields behind the first one of a line, where that is this word.
fn fields_behind<'a>(line: &'a [u8], word: &[u8]) -> Option<Fields<'a>>
    ensures { result ≡ behind word.now (fields line.now) }
{
    let mut fields = Fields::of(line);
    if fields.next_field()? == word {
        Some(fields)
    } else {
        None
    }
}

impl Head {
    /// Nothing is read; takes no memory.
    pub fn new(alloc: Global) -> Head
        ensures { result ≡ no_head }
    {
        Head {
            due: Due::Header,
            regs: [0; 8],
            flags: SixFlags::new(0),
            fs: 0,
            gs: 0,
            fill: Growing::new(alloc),
        }
    }

    /// Takes in the line that is due, one of the first four; else tells the kind of its fault.
    #[tactic(auto, unfolding(crate::specs::Grammar::head_step))]
    pub fn read_line(&mut self, header: &[u8], line: &[u8]) -> Result<(), u8>
        ensures { MatchResult result (λ _. head_step header.now self.old line.now ≡ Ok self.new) (λ kind. head_step header.now self.old line.now ≡ Err kind) }
    {
        match self.due {
            Due::Header => self.read_header(header, line),
            Due::Regs => self.read_regs(line),
            Due::Flags => self.read_flags(line),
            Due::Bases => self.read_bases(line),
            Due::Rest => Err(WORD),
        }
    }

    fn read_header(&mut self, header: &[u8], line: &[u8]) -> Result<(), u8>
        ensures { MatchResult result (λ _. header_step header.now self.old line.now ≡ Ok self.new) (λ kind. header_step header.now self.old line.now ≡ Err kind) }
    {
        if line != header {
            return Err(HEADER);
        }
        self.due = Due::Regs;
        Ok(())
    }

    fn read_regs(&mut self, line: &[u8]) -> Result<(), u8>
        ensures { MatchResult result (λ _. regs_step self.old line.now ≡ Ok self.new) (λ kind. regs_step self.old line.now ≡ Err kind) }
    {
        let Some(fields) = fields_behind(line, b"regs") else {
            return Err(WORD);
        };
        let Some(regs) = regs_of(fields) else {
            return Err(FIELD);
        };
        self.regs = regs;
        self.due = Due::Flags;
        Ok(())
    }

    fn read_flags(&mut self, line: &[u8]) -> Result<(), u8>
        ensures { MatchResult result (λ _. flags_step self.old line.now ≡ Ok self.new) (λ kind. flags_step self.old line.now ≡ Err kind) }
    {
        let Some(fields) = fields_behind(line, b"flags") else {
            return Err(WORD);
        };
        let Some(flags) = six_flags_of(fields) else {
            return Err(FIELD);
        };
        self.flags = flags;
        self.due = Due::Bases;
        Ok(())
    }

    fn read_bases(&mut self, line: &[u8]) -> Result<(), u8>
        ensures { MatchResult result (λ _. bases_step self.old line.now ≡ Ok self.new) (λ kind. bases_step self.old line.now ≡ Err kind) }
    {
        let Some(fields) = fields_behind(line, b"bases") else {
            return Err(WORD);
        };
        let Some((fs, gs)) = bases_of(fields) else {
            return Err(FIELD);
        };
        self.fs = fs;
        self.gs = gs;
        self.due = Due::Rest;
        Ok(())
    }

    /// The start file of these lines, with these choices; takes no memory.
    pub fn into_start(self, choices: Items<Choice>) -> StartFile
        ensures { IsStartOf self choices result }
    {
        let Head {
            due: _,
            regs,
            flags,
            fs,
            gs,
            fill,
        } = self;
        StartFile {
            regs,
            flags: flags.get(),
            fs,
            gs,
            fill: fill.into_items(),
            choices,
        }
    }

    /// Puts a fill behind those of the start.
    pub fn add_fill(&mut self, fill: Fill) -> Result<(), AllocError>
        ensures { OnOk result (self.new ≡ with_head_fill fill self.old) }
    {
        self.fill.push(fill)
    }
}

/// Puts a fill behind those of a choice.
pub fn with_fill(mut choice: Choice, fill: Fill) -> Result<Choice, AllocError>
    ensures { IfOk result (λ more. more ≡ with_fill fill choice) }
{
    let mut held = choice.fill.into_vec();
    held.push(fill)?;
    choice.fill = Items::from_vec(held);
    Ok(choice)
}
