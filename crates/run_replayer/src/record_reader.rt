ghost use Rattle.std.specs.Prelude.{◌≡◌, IfOk, Some, Ok, MatchResult, OnOk};
ghost use Rattle.text_fields.specs.Lines.{IsFaultOf, IsRefusalOf, fields};
ghost use Rattle.run_replayer.specs.Grammar.{IsRecord, StatesRecord, no_record, record_grammar, record_read, record_rest, record_step, with_record_fill};
ghost use Rattle.run_replayer.specs.Texts.{record_text};

use crate::fields::{ending_of, fill_of, step_of};
use crate::growing::Growing;
use crate::head::{Due, Head, with_fill};
use crate::{EndWord, RunRecord, RunStep};
use memory_map::{Fill, Items};
use std::alloc::{AllocError, Global};
use text_fields::{FIELD, Fields, LineReader, LineRefusal, TextFault, WORD, read_lines};

/// What the lines of a run record have stated so far.
#[derive(Drop)]
pub struct RecordReader {
    head: Head,
    steps: Growing<RunStep>,
    end: Option<EndWord>,
}

impl RecordReader {
    fn new(alloc: Global) -> RecordReader
        ensures { result ≡ no_record }
    {
        RecordReader {
            head: Head::new(alloc),
            steps: Growing::new(alloc),
            end: None,
        }
    }

    // A fill of the last step's choice, or of the start where there is none.
    fn add_fill(&mut self, fill: Fill) -> Result<(), AllocError>
        ensures { OnOk result (self.new ≡ with_record_fill fill self.old.steps self.old) }
    {
        match self.steps.pop() {
            None => self.head.add_fill(fill),
            Some(mut step) => {
                step.choice = with_fill(step.choice, fill)?;
                self.steps.push(step)
            }
        }
    }

    // A fill, a step, or the end.
    #[tactic(auto, unfolding(crate::specs::Grammar::record_rest))]
    fn read_rest(&mut self, alloc: Global, line: &[u8]) -> Result<(), LineRefusal>
        ensures { MatchResult result (λ _. record_rest self.old (fields line.now) ≡ Ok self.new) (λ e. IsRefusalOf (record_rest self.old (fields line.now)) e) }
    {
        let mut fields = Fields::of(line);
        let Some(word) = fields.next_field() else {
            return Err(LineRefusal::Kind(WORD));
        };
        if word == b"fill".as_slice() {
            let Some(fill) = fill_of(alloc, fields)? else {
                return Err(LineRefusal::Kind(FIELD));
            };
            self.add_fill(fill)?;
            return Ok(());
        }
        if word == b"step".as_slice() {
            let Some(step) = step_of(alloc, fields) else {
                return Err(LineRefusal::Kind(FIELD));
            };
            self.steps.push(step)?;
            return Ok(());
        }
        if word != b"end".as_slice() {
            return Err(LineRefusal::Kind(WORD));
        }
        let Some(end) = ending_of(fields) else {
            return Err(LineRefusal::Kind(FIELD));
        };
        self.end = Some(end);
        Ok(())
    }

    // The record of all lines.
    fn into_record(self, alloc: Global, end: EndWord) -> RunRecord
        requires { self.end ≡ Some end }
        ensures { IsRecord self result }
    {
        let RecordReader {
            head,
            steps,
            end: _,
        } = self;
        RunRecord {
            start: head.into_start(Items::from_vec(Vec::new(alloc))),
            steps: steps.into_items(),
            end,
        }
    }
}

impl LineReader for RecordReader {
    ghost use Rattle.run_replayer.specs.Grammar.{record_grammar};

    ghost grammar = { record_grammar };

    #[tactic(auto, unfolding(crate::specs::Grammar::record_step))]
    fn read_line(&mut self, alloc: Global, line: &[u8]) -> Result<(), LineRefusal> {
        if self.head.due == Due::Rest {
            return self.read_rest(alloc, line);
        }
        match self.head.read_line(b"jakstab-record 1", line) {
            Ok(()) => Ok(()),
            Err(kind) => Err(LineRefusal::Kind(kind)),
        }
    }

    fn is_ended(&self) -> bool {
        self.end.is_some()
    }
}

/// Reads a run record; refuses it exactly at its first bad line. Printing it gives the bytes back.
pub fn read_record(alloc: Global, bytes: &[u8]) -> Result<RunRecord, TextFault>
    ensures read { MatchResult result (StatesRecord bytes.now) (λ fault. IsFaultOf (record_read bytes.now) fault) }
    ensures text { IfOk result (λ r. bytes.now ≡ record_text r) }
{
    let read = read_lines(alloc, RecordReader::new(alloc), bytes)?;
    match read.end {
        Some(end) => Ok(read.into_record(alloc, end)),
        None => unreachable!(),
    }
}
