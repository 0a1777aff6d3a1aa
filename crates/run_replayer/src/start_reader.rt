ghost use Rattle.std.specs.Prelude.{◌≡◌, IfOk, Ok, MatchResult, OnOk};
ghost use Rattle.text_fields.specs.Lines.{IsFaultOf, IsRefusalOf, fields};
ghost use Rattle.run_replayer.specs.Grammar.{IsStart, StatesStart, no_start, start_grammar, start_read, start_rest, start_step, with_start_fill};
ghost use Rattle.run_replayer.specs.Texts.{start_text};

use crate::fields::{choice_of, fill_of};
use crate::growing::Growing;
use crate::head::{Due, Head, with_fill};
use memory_map::{Choice, Fill};
use std::alloc::{AllocError, Global};
use text_fields::{FIELD, Fields, LineReader, LineRefusal, TextFault, WORD, read_lines};
use x86_machine::StartFile;

/// What the lines of a start file have stated so far.
#[derive(Drop)]
pub struct StartReader {
    head: Head,
    choices: Growing<Choice>,
    ended: bool,
}

impl StartReader {
    fn new(alloc: Global) -> StartReader
        ensures { result ≡ no_start }
    {
        StartReader {
            head: Head::new(alloc),
            choices: Growing::new(alloc),
            ended: false,
        }
    }

    // A fill of the last choice, or of the start where there is none.
    fn add_fill(&mut self, fill: Fill) -> Result<(), AllocError>
        ensures { OnOk result (self.new ≡ with_start_fill fill self.old.choices self.old) }
    {
        match self.choices.pop() {
            None => self.head.add_fill(fill),
            Some(choice) => self.choices.push(with_fill(choice, fill)?),
        }
    }

    // A fill, a choice, or the end.
    #[tactic(auto, unfolding(crate::specs::Grammar::start_rest))]
    fn read_rest(&mut self, alloc: Global, line: &[u8]) -> Result<(), LineRefusal>
        ensures { MatchResult result (λ _. start_rest self.old (fields line.now) ≡ Ok self.new) (λ e. IsRefusalOf (start_rest self.old (fields line.now)) e) }
    {
        let mut fields = Fields::of(line);
        let Some(word) = fields.next_field() else {
            return Err(LineRefusal::Kind(WORD));
        };
        if word == b"fill".as_slice() {
            let Some(fill) = fill_of(alloc, fields)? else {
                return Err(LineRefusal::Kind(FIELD));
            };
            self.add_fill(fill)?;
            return Ok(());
        }
        if word == b"choice".as_slice() {
            let Some(choice) = choice_of(alloc, fields) else {
                return Err(LineRefusal::Kind(FIELD));
            };
            self.choices.push(choice)?;
            return Ok(());
        }
        if word != b"end".as_slice() {
            return Err(LineRefusal::Kind(WORD));
        }
        if !fields.is_done() {
            return Err(LineRefusal::Kind(FIELD));
        }
        self.ended = true;
        Ok(())
    }

    // The start file of all lines.
    fn into_start(self) -> StartFile
        ensures { IsStart self result }
    {
        let StartReader {
            head,
            choices,
            ended: _,
        } = self;
        head.into_start(choices.into_items())
    }
}

impl LineReader for StartReader {
    ghost use Rattle.run_replayer.specs.Grammar.{start_grammar};

    ghost grammar = { start_grammar };

    #[tactic(auto, unfolding(crate::specs::Grammar::start_step))]
    fn read_line(&mut self, alloc: Global, line: &[u8]) -> Result<(), LineRefusal> {
        if self.head.due == Due::Rest {
            return self.read_rest(alloc, line);
        }
        match self.head.read_line(b"jakstab-start 1", line) {
            Ok(()) => Ok(()),
            Err(kind) => Err(LineRefusal::Kind(kind)),
        }
    }

    fn is_ended(&self) -> bool {
        self.ended
    }
}

/// Reads a start file; refuses it exactly at its first bad line.
pub fn read_start(alloc: Global, bytes: &[u8]) -> Result<StartFile, TextFault>
    ensures read { MatchResult result (StatesStart bytes.now) (λ fault. IsFaultOf (start_read bytes.now) fault) }
    ensures text { IfOk result (λ s. bytes.now ≡ start_text s) }
{
    let read = read_lines(alloc, StartReader::new(alloc), bytes)?;
    Ok(read.into_start())
}
