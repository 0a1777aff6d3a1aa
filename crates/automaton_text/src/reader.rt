ghost use Rattle.std.specs.Prelude.{◌≡◌, Ok, MatchResult, codes};
ghost use Rattle.std.specs.Ordering.{is_lt};
ghost use Rattle.automaton_text.specs.Orders.{opening_cmp};
ghost use Rattle.text_fields.specs.Lines.{IsFaultOf, IsRefusalOf, fields};
ghost use Rattle.automaton_text.specs.Reading.{automaton_read, code_step, count_fields, edge_step, end_step, entry_step, has_own_suffix, header_step, import_step, label_step, later_step, location_or_later_step, location_step, mark_step, nothing, is_line_above, is_mark_above, is_marks, is_named, own_name, told, told_fault, version_of, with_edge};

use crate::code_text::is_code;
use crate::line_fields::{code_fields, end_fields, import_fields, location_fields, mark_fields};
use crate::places::Places;
use crate::stage::Stage;
use crate::{Automaton, Location, OpenMark};
use flow_log::{Edge, Label};
use memory_map::{Items, Name, USER_END};
use std::alloc::Global;
use std::marker::Model;
use text_fields::{
    CONTENT, COUNT, END, FIELD, Fields, HEADER, LineFault, LineReader, LineRefusal, ORDER,
    TextFault, WORD, decimal_is, read_lines,
};

/// The kind by which the first line after the locations tells that the entry is none of them.
const NO_ENTRY: u8 = 8;

// What the lines of an automaton's text have told so far.
#[derive(Drop)]
struct AutomatonReader {
    stage: Stage,
    version: u8,
    entry: u32,
    locations: Places,
    edges: Vec<Edge>,
    last_edge: Vec<u8>,
    marks: Vec<OpenMark>,
}

impl Model for AutomatonReader {
    ghost use Rattle.automaton_text.specs.Reading.{AutomatonSoFar};

    ghost Value = { AutomatonSoFar };

    ghost view = { λ r. record {
      stage = r.stage;
      version = r.version;
      entry = r.entry;
      locations = r.locations;
      edges = r.edges.items;
      last_edge = r.last_edge.items;
      marks = r.marks.items;
    } };
}

fn version_of(line: &[u8]) -> Option<u8>
    ensures { result ≡ version_of line.now }
{
    if line == b"jakstab-automaton 1".as_slice() {
        Some(1)
    } else if line == b"jakstab-automaton 2".as_slice() {
        Some(2)
    } else {
        None
    }
}

fn is_dash(suffix: &Option<Name>) -> bool
    ensures { result ≡ is_named (codes "-") suffix.now }
{
    match suffix {
        None => false,
        Some(name) => name.as_slice() == b"-".as_slice(),
    }
}

fn has_own_suffix(at: u32, suffix: &Option<Name>) -> bool
    ensures { result ≡ has_own_suffix at suffix.now }
{
    if at == USER_END {
        is_dash(suffix)
    } else {
        !is_dash(suffix)
    }
}

fn own_name(at: u32, suffix: Option<Name>) -> Option<Name>
    ensures { result ≡ own_name at suffix }
{
    if at == USER_END { None } else { suffix }
}

fn is_line_above(last: &[u8], line: &[u8]) -> bool
    ensures { result ≡ is_line_above last.now line.now }
{
    last.cmp(&line).is_lt()
}

fn is_opening_below(last: &OpenMark, m: &OpenMark) -> bool
    ensures { result ≡ is_lt (opening_cmp last.now m.now) }
{
    last.at.cmp(&m.at).then(last.cause.cmp(&m.cause)).is_lt()
}

fn is_mark_above(marks: &[OpenMark], m: &OpenMark) -> bool
    ensures { result ≡ is_mark_above marks.now m.now }
{
    match marks.last() {
        None => true,
        Some(last) => is_opening_below(last, m),
    }
}

fn is_marks(stage: Stage) -> bool
    ensures { result ≡ is_marks stage }
{
    match stage {
        Stage::Marks => true,
        Stage::Start | Stage::Header | Stage::Locations | Stage::Edges | Stage::Ended => false,
    }
}

fn told_fault(f: LineFault) -> LineFault
    ensures { result ≡ told_fault f }
{
    if f.kind == NO_ENTRY {
        LineFault {
            line: 2,
            kind: CONTENT,
        }
    } else {
        f
    }
}

impl AutomatonReader {
    fn new(alloc: Global) -> AutomatonReader
        ensures { result ≡ nothing }
    {
        AutomatonReader {
            stage: Stage::Start,
            version: 0,
            entry: 0,
            locations: Places::new(alloc),
            edges: Vec::new(alloc),
            last_edge: Vec::new(alloc),
            marks: Vec::new(alloc),
        }
    }

    fn read_header(&mut self, line: &[u8]) -> Result<(), LineRefusal>
        ensures { MatchResult result (λ _. header_step self.old line.now ≡ Ok self.new) (λ e. IsRefusalOf (header_step self.old line.now) e) }
    {
        let Some(version) = version_of(line) else {
            return Err(LineRefusal::Kind(HEADER));
        };
        self.version = version;
        self.stage = Stage::Header;
        Ok(())
    }

    fn read_entry(&mut self, line: &[u8]) -> Result<(), LineRefusal>
        ensures { MatchResult result (λ _. entry_step self.old (fields line.now) ≡ Ok self.new) (λ e. IsRefusalOf (entry_step self.old (fields line.now)) e) }
    {
        let mut fields = Fields::of(line);
        let Some(word) = fields.next_field() else {
            return Err(LineRefusal::Kind(WORD));
        };
        if word != b"entry".as_slice() {
            return Err(LineRefusal::Kind(WORD));
        }
        let Some(entry) = fields.only_word() else {
            return Err(LineRefusal::Kind(FIELD));
        };
        self.entry = entry;
        self.stage = Stage::Locations;
        Ok(())
    }

    #[tactic(auto, unfolding(crate::specs::Reading::location_step))]
    fn add_location(&mut self, at: u32, suffix: Option<Name>) -> Result<(), LineRefusal>
        ensures { MatchResult result (λ _. location_step self.old at suffix ≡ Ok self.new) (λ e. IsRefusalOf (location_step self.old at suffix) e) }
    {
        if !self.locations.is_above(at) {
            return Err(LineRefusal::Kind(ORDER));
        }
        if !has_own_suffix(at, &suffix) {
            return Err(LineRefusal::Kind(CONTENT));
        }
        let name = own_name(at, suffix);
        self.locations.push(Location { at, name })?;
        Ok(())
    }

    fn push_edge(&mut self, line: &[u8], e: Edge) -> Result<(), LineRefusal>
        ensures { MatchResult result (λ _. self.new ≡ with_edge self.old line.now e) (λ e. e ≡ LineRefusal.Memory) }
    {
        self.last_edge.clear();
        self.last_edge.extend_from_slice(line)?;
        self.edges.push(e)?;
        self.stage = Stage::Edges;
        Ok(())
    }

    #[tactic(auto, unfolding(crate::specs::Reading::import_step))]
    fn add_import(&mut self, line: &[u8], from: u32, to: u32, name: Name) -> Result<(), LineRefusal>
        ensures { MatchResult result (λ _. import_step self.old line.now from to name ≡ Ok self.new) (λ e. IsRefusalOf (import_step self.old line.now from to name) e) }
    {
        if !is_line_above(&self.last_edge, line) {
            return Err(LineRefusal::Kind(ORDER));
        }
        if !self.locations.is_place_of(from, &name) {
            return Err(LineRefusal::Kind(CONTENT));
        }
        if !self.locations.has(to) {
            return Err(LineRefusal::Kind(CONTENT));
        }
        let label = Label::Import(name);
        self.push_edge(line, Edge { from, to, label })
    }

    #[tactic(auto, unfolding(crate::specs::Reading::code_step))]
    fn add_code(
        &mut self,
        line: &[u8],
        from: u32,
        to: u32,
        bytes: &[u8],
        text: &[u8],
    ) -> Result<(), LineRefusal>
        ensures { MatchResult result (λ _. code_step self.old line.now from to bytes.now text.now ≡ Ok self.new) (λ e. IsRefusalOf (code_step self.old line.now from to bytes.now text.now) e) }
    {
        if !is_line_above(&self.last_edge, line) {
            return Err(LineRefusal::Kind(ORDER));
        }
        if !self.locations.has(from) {
            return Err(LineRefusal::Kind(CONTENT));
        }
        if !self.locations.has(to) {
            return Err(LineRefusal::Kind(CONTENT));
        }
        if !is_code(from, bytes, text) {
            return Err(LineRefusal::Kind(CONTENT));
        }
        let label = Label::code(bytes);
        self.push_edge(line, Edge { from, to, label })
    }

    #[tactic(auto, unfolding(crate::specs::Reading::label_step))]
    fn read_label(
        &mut self,
        alloc: Global,
        line: &[u8],
        from: u32,
        to: u32,
        mut fields: Fields,
    ) -> Result<(), LineRefusal>
        ensures { MatchResult result (λ _. label_step self.old line.now from to fields.entry ≡ Ok self.new) (λ e. IsRefusalOf (label_step self.old line.now from to fields.entry) e) }
    {
        let Some(field) = fields.next_field() else {
            return Err(LineRefusal::Kind(FIELD));
        };
        if field == b"import".as_slice() {
            let Some(name) = import_fields(alloc, fields)? else {
                return Err(LineRefusal::Kind(FIELD));
            };
            return self.add_import(line, from, to, name);
        }
        let Some((bytes, text)) = code_fields(alloc, field, fields)? else {
            return Err(LineRefusal::Kind(FIELD));
        };
        self.add_code(line, from, to, &bytes, text)
    }

    #[tactic(auto, unfolding(crate::specs::Reading::edge_step))]
    fn read_edge(&mut self, alloc: Global, line: &[u8], fields: Fields) -> Result<(), LineRefusal>
        ensures { MatchResult result (λ _. edge_step self.old line.now fields.entry ≡ Ok self.new) (λ e. IsRefusalOf (edge_step self.old line.now fields.entry) e) }
    {
        let Some((from, to, label)) = end_fields(fields) else {
            return Err(LineRefusal::Kind(FIELD));
        };
        self.read_label(alloc, line, from, to, label)
    }

    #[tactic(auto, unfolding(crate::specs::Reading::mark_step))]
    fn add_mark(&mut self, m: OpenMark) -> Result<(), LineRefusal>
        ensures { MatchResult result (λ _. mark_step self.old m ≡ Ok self.new) (λ e. IsRefusalOf (mark_step self.old m) e) }
    {
        if !is_mark_above(&self.marks, &m) {
            return Err(LineRefusal::Kind(ORDER));
        }
        if !self.locations.has(m.at) {
            return Err(LineRefusal::Kind(CONTENT));
        }
        self.marks.push(m)?;
        self.stage = Stage::Marks;
        Ok(())
    }

    #[tactic(auto, unfolding(crate::specs::Reading::count_fields, text_fields::specs::Fields::then_field))]
    fn count_fields(&self, mut fields: Fields) -> Option<bool>
        ensures { result ≡ count_fields self.now fields.entry }
    {
        let locations = decimal_is(fields.next_field()?, self.locations.len() as u64)?;
        let edges = decimal_is(fields.next_field()?, self.edges.len() as u64)?;
        let marks = decimal_is(fields.next_field()?, self.marks.len() as u64)?;
        if fields.is_done() {
            Some(locations && edges && marks)
        } else {
            None
        }
    }

    #[tactic(auto, unfolding(crate::specs::Reading::end_step))]
    fn read_end(&mut self, fields: Fields) -> Result<(), LineRefusal>
        ensures { MatchResult result (λ _. end_step self.old fields.entry ≡ Ok self.new) (λ e. IsRefusalOf (end_step self.old fields.entry) e) }
    {
        let Some(hold) = self.count_fields(fields) else {
            return Err(LineRefusal::Kind(FIELD));
        };
        if !hold {
            return Err(LineRefusal::Kind(COUNT));
        }
        self.stage = Stage::Ended;
        Ok(())
    }

    // An edge, a mark or the end.
    #[tactic(auto, unfolding(crate::specs::Reading::later_step))]
    fn read_later(&mut self, alloc: Global, line: &[u8]) -> Result<(), LineRefusal>
        ensures { MatchResult result (λ _. later_step self.old line.now (fields line.now) ≡ Ok self.new) (λ e. IsRefusalOf (later_step self.old line.now (fields line.now)) e) }
    {
        let mut fields = Fields::of(line);
        let Some(word) = fields.next_field() else {
            return Err(LineRefusal::Kind(WORD));
        };
        if word == b"edge".as_slice() {
            if is_marks(self.stage) {
                return Err(LineRefusal::Kind(WORD));
            }
            return self.read_edge(alloc, line, fields);
        }
        if word == b"open".as_slice() {
            let Some(m) = mark_fields(self.version, fields) else {
                return Err(LineRefusal::Kind(FIELD));
            };
            return self.add_mark(m);
        }
        if word == b"end".as_slice() {
            return self.read_end(fields);
        }
        Err(LineRefusal::Kind(WORD))
    }

    // One more location, or the first line that is none.
    #[tactic(auto, unfolding(crate::specs::Reading::location_or_later_step))]
    fn read_location_or_later(&mut self, alloc: Global, line: &[u8]) -> Result<(), LineRefusal>
        ensures { MatchResult result (λ _. location_or_later_step self.old line.now (fields line.now) ≡ Ok self.new) (λ e. IsRefusalOf (location_or_later_step self.old line.now (fields line.now)) e) }
    {
        let mut fields = Fields::of(line);
        let Some(word) = fields.next_field() else {
            return Err(LineRefusal::Kind(WORD));
        };
        if word == b"loc".as_slice() {
            let Some((at, suffix)) = location_fields(alloc, fields)? else {
                return Err(LineRefusal::Kind(FIELD));
            };
            return self.add_location(at, suffix);
        }
        if !self.locations.has(self.entry) {
            return Err(LineRefusal::Kind(NO_ENTRY));
        }
        self.read_later(alloc, line)
    }

    // The automaton of all lines.
    fn into_automaton(self) -> Automaton
        ensures { told (Ok self) ≡ Ok result }
    {
        let AutomatonReader {
            stage: _,
            version,
            entry,
            locations,
            edges,
            last_edge: _,
            marks,
        } = self;
        Automaton {
            version,
            entry,
            locations: Items::from_vec(locations.into_vec()),
            edges: Items::from_vec(edges),
            marks: Items::from_vec(marks),
        }
    }
}

impl LineReader for AutomatonReader {
    ghost use Rattle.automaton_text.specs.Reading.{automaton_grammar};

    ghost grammar = { automaton_grammar };

    #[tactic(auto, unfolding(crate::specs::Reading::automaton_step))]
    fn read_line(&mut self, alloc: Global, line: &[u8]) -> Result<(), LineRefusal> {
        match self.stage {
            Stage::Start => self.read_header(line),
            Stage::Header => self.read_entry(line),
            Stage::Locations => self.read_location_or_later(alloc, line),
            Stage::Edges => self.read_later(alloc, line),
            Stage::Marks => self.read_later(alloc, line),
            Stage::Ended => Err(LineRefusal::Kind(END)),
        }
    }

    fn is_ended(&self) -> bool {
        match self.stage {
            Stage::Ended => true,
            Stage::Start | Stage::Header | Stage::Locations | Stage::Edges | Stage::Marks => false,
        }
    }
}

/// The automaton that a text of version 1 or 2 tells; refuses the text exactly at its first bad line.
#[tactic(auto, unfolding(crate::specs::Reading::automaton_read))]
pub fn read_automaton(alloc: Global, bytes: &[u8]) -> Result<Automaton, TextFault>
    ensures { MatchResult result (λ a. automaton_read bytes.now ≡ Ok a) (λ fault. IsFaultOf (automaton_read bytes.now) fault) }
{
    match read_lines(alloc, AutomatonReader::new(alloc), bytes) {
        Ok(reader) => Ok(reader.into_automaton()),
        Err(TextFault::Line(f)) => Err(TextFault::Line(told_fault(f))),
        Err(TextFault::Memory) => Err(TextFault::Memory),
    }
}
