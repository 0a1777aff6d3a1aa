ghost use Rattle.std.specs.Prelude.{◌≡◌, ◌&&◌, Ok, MatchResult, nat_lt};
ghost use Rattle.bounded_values.specs.BoundedLaws.{bounded};
ghost use Rattle.partitioned_memory.specs.Building.{is_sound_dirty, is_sound_fact};
ghost use Rattle.partitioned_memory.specs.Pairs.{spot_before};
ghost use Rattle.abstract_state.specs.Building.{is_dirty_of, is_fact_of};
ghost use Rattle.partitioned_memory.specs.Held.{count_before, dirty_before, fact_before, spot_at};
ghost use Rattle.table_check.specs.Reading.{block_step, closed, count_fields, dirty_step, end_step, fact_step, flags_step, header_step, is_dirty_above, is_fact_above, k_step, mark_or_next_step, mark_step, next_step, no_state, note_step, nothing, part_of, regs_step, row_step, state_step, table_read, told};
ghost use Rattle.text_fields.specs.Lines.{IsFaultOf, IsRefusalOf, fields, follows_last};

use crate::Table;
use crate::fields::{
    block_fields, dirty_fields, fact_fields, flags_fields, k_fields, note_fields, regs_fields,
};
use crate::stage::Stage;
use abstract_state::{BuildFault, Note, State, StateData, Truth, is_dirty_of, is_fact_of};
use bounded_values::Bounded;
use image_loader::Image;
use memory_map::Items;
use partitioned_memory::{Counted, Dirty, Fact, Spot};
use std::alloc::Global;
use std::marker::Model;
use std::mem;
use text_fields::{
    CONTENT, COUNT, END, FIELD, Fields, HEADER, LineReader, LineRefusal, ORDER, TextFault, WORD,
    decimal_is, read_lines,
};

// What the lines of a table's text have told so far.
#[derive(Drop)]
struct TableReader<'a> {
    image: &'a Image,
    stage: Stage,
    k: u32,
    marked: Vec<u32>,
    rows: Vec<(u32, State<Bounded>)>,
    // The row that is being read.
    at: u32,
    regs: Vec<Bounded>,
    flags: Vec<Truth>,
    note: Option<Note>,
    facts: Vec<Fact<Bounded>>,
    dirty: Vec<Dirty>,
    blocks: Vec<Counted>,
}

impl<'a> Model for TableReader<'a> {
    ghost use Rattle.table_check.specs.Reading.{TableSoFar};

    ghost Value = { TableSoFar };

    ghost view = { λ r. record {
      image = r.image.now;
      stage = r.stage;
      k = r.k;
      marked = r.marked.items;
      rows = r.rows.items;
      at = r.at;
      state = record { regs = r.regs.items; flags = r.flags.items; note = r.note; facts = r.facts.items; dirty = r.dirty.items; blocks = r.blocks.items };
    } };
}

fn is_above(marked: &[u32], at: u32) -> bool
    ensures { result ≡ follows_last nat_lt marked.now at }
{
    match marked.last() {
        None => true,
        Some(last) => *last < at,
    }
}

fn spot_of(f: &Fact<Bounded>) -> Spot
    ensures { result ≡ spot_at f.now.area f.now.low }
{
    Spot {
        area: f.area,
        low: f.low,
    }
}

fn is_fact_above(facts: &[Fact<Bounded>], f: &Fact<Bounded>) -> bool
    ensures { result ≡ follows_last is_fact_above facts.now f.now }
{
    match facts.last() {
        None => true,
        Some(last) => is_spot_below(spot_of(last), spot_of(f)),
    }
}

#[tactic(auto, unfolding(partitioned_memory::specs::Pairs::spot_cmp))]
fn is_spot_below(a: Spot, b: Spot) -> bool
    ensures { result ≡ spot_before a b }
{
    a.cmp(&b).is_lt()
}

fn is_fact_clear(facts: &[Fact<Bounded>], f: &Fact<Bounded>) -> bool
    ensures { result ≡ follows_last fact_before facts.now f.now }
{
    match facts.last() {
        None => true,
        Some(last) => last.is_before(f),
    }
}

// Whether a fact may stand behind these: it is sound, of bytes of the image where it is one of the image, and meets none of them.
fn is_fact_next(image: &Image, facts: &[Fact<Bounded>], f: &Fact<Bounded>) -> bool
    ensures { result ≡ (is_sound_fact bounded f.now && (is_fact_of image.now f.now && follows_last fact_before facts.now f.now)) }
{
    f.is_sound() && (is_fact_of(image, f) && is_fact_clear(facts, f))
}

fn is_dirty_above(dirty: &[Dirty], r: Dirty) -> bool
    ensures { result ≡ follows_last is_dirty_above dirty.now r }
{
    match dirty.last() {
        None => true,
        Some(last) => {
            let last = Spot {
                area: last.area,
                low: last.low,
            };
            let own = Spot {
                area: r.area,
                low: r.low,
            };
            is_spot_below(last, own)
        }
    }
}

fn is_dirty_clear(dirty: &[Dirty], r: Dirty) -> bool
    ensures { result ≡ follows_last dirty_before dirty.now r }
{
    match dirty.last() {
        None => true,
        Some(last) => last.comes_before(r),
    }
}

// The same of a dirty range, which touches none of them either.
fn is_dirty_next(image: &Image, dirty: &[Dirty], r: Dirty) -> bool
    ensures { result ≡ (is_sound_dirty r && (is_dirty_of image.now r && follows_last dirty_before dirty.now r)) }
{
    r.is_sound() && (is_dirty_of(image, r) && is_dirty_clear(dirty, r))
}

fn is_count_above(blocks: &[Counted], c: Counted) -> bool
    ensures { result ≡ follows_last count_before blocks.now c }
{
    match blocks.last() {
        None => true,
        Some(last) => last.comes_before(c),
    }
}

// How far a state was read.
fn part_of(stage: Stage) -> u8
    ensures { result ≡ part_of stage }
{
    match stage {
        Stage::Note => 1,
        Stage::Facts => 2,
        Stage::Dirty => 3,
        Stage::Blocks => 4,
        Stage::Start
        | Stage::Header
        | Stage::Marks
        | Stage::Row
        | Stage::Regs
        | Stage::Flags
        | Stage::Ended => 0,
    }
}

impl<'a> TableReader<'a> {
    fn new(alloc: Global, image: &'a Image) -> TableReader<'a>
        ensures { result ≡ nothing image.now }
    {
        TableReader {
            image,
            stage: Stage::Start,
            k: 0,
            marked: Vec::new(alloc),
            rows: Vec::new(alloc),
            at: 0,
            regs: Vec::new(alloc),
            flags: Vec::new(alloc),
            note: None,
            facts: Vec::new(alloc),
            dirty: Vec::new(alloc),
            blocks: Vec::new(alloc),
        }
    }

    // ---- before the rows

    fn read_header(&mut self, line: &[u8]) -> Result<(), LineRefusal>
        ensures { MatchResult result (λ _. header_step self.old line.now ≡ Ok self.new) (λ e. IsRefusalOf (header_step self.old line.now) e) }
    {
        if line != b"jakstab-table 1".as_slice() {
            return Err(LineRefusal::Kind(HEADER));
        }
        self.stage = Stage::Header;
        Ok(())
    }

    fn read_k(&mut self, line: &[u8]) -> Result<(), LineRefusal>
        ensures { MatchResult result (λ _. k_step self.old (fields line.now) ≡ Ok self.new) (λ e. IsRefusalOf (k_step self.old (fields line.now)) e) }
    {
        let mut fields = Fields::of(line);
        let Some(word) = fields.next_field() else {
            return Err(LineRefusal::Kind(WORD));
        };
        if word != b"k".as_slice() {
            return Err(LineRefusal::Kind(WORD));
        }
        let Some(k) = k_fields(fields) else {
            return Err(LineRefusal::Kind(FIELD));
        };
        self.k = k;
        self.stage = Stage::Marks;
        Ok(())
    }

    #[tactic(auto, unfolding(crate::specs::Reading::mark_step))]
    fn add_mark(&mut self, at: u32) -> Result<(), LineRefusal>
        ensures { MatchResult result (λ _. mark_step self.old at ≡ Ok self.new) (λ e. IsRefusalOf (mark_step self.old at) e) }
    {
        if !is_above(&self.marked, at) {
            return Err(LineRefusal::Kind(ORDER));
        }
        self.marked.push(at)?;
        Ok(())
    }

    // ---- a row, its registers and its flags

    fn read_row(&mut self, fields: Fields) -> Result<(), LineRefusal>
        ensures { MatchResult result (λ _. row_step self.old fields.entry ≡ Ok self.new) (λ e. IsRefusalOf (row_step self.old fields.entry) e) }
    {
        let Some(at) = fields.only_word() else {
            return Err(LineRefusal::Kind(FIELD));
        };
        self.at = at;
        self.stage = Stage::Row;
        Ok(())
    }

    fn read_regs(&mut self, alloc: Global, line: &[u8]) -> Result<(), LineRefusal>
        ensures { MatchResult result (λ _. regs_step self.old (fields line.now) ≡ Ok self.new) (λ e. IsRefusalOf (regs_step self.old (fields line.now)) e) }
    {
        let mut fields = Fields::of(line);
        let Some(word) = fields.next_field() else {
            return Err(LineRefusal::Kind(WORD));
        };
        if word != b"regs".as_slice() {
            return Err(LineRefusal::Kind(WORD));
        }
        let Some(regs) = regs_fields(fields) else {
            return Err(LineRefusal::Kind(FIELD));
        };
        self.regs = Vec::from_array(alloc, regs)?;
        self.stage = Stage::Regs;
        Ok(())
    }

    fn read_flags(&mut self, alloc: Global, line: &[u8]) -> Result<(), LineRefusal>
        ensures { MatchResult result (λ _. flags_step self.old (fields line.now) ≡ Ok self.new) (λ e. IsRefusalOf (flags_step self.old (fields line.now)) e) }
    {
        let mut fields = Fields::of(line);
        let Some(word) = fields.next_field() else {
            return Err(LineRefusal::Kind(WORD));
        };
        if word != b"flags".as_slice() {
            return Err(LineRefusal::Kind(WORD));
        }
        let Some(flags) = flags_fields(alloc, fields)? else {
            return Err(LineRefusal::Kind(FIELD));
        };
        self.flags = flags;
        self.stage = Stage::Flags;
        Ok(())
    }

    // ---- the other lines of a state

    #[tactic(auto, unfolding(crate::specs::Reading::note_step))]
    fn set_note(&mut self, note: Note) -> Result<(), LineRefusal>
        ensures { MatchResult result (λ _. note_step self.old note ≡ Ok self.new) (λ e. IsRefusalOf (note_step self.old note) e) }
    {
        if !note.is_well() {
            return Err(LineRefusal::Kind(CONTENT));
        }
        self.note = Some(note);
        self.stage = Stage::Note;
        Ok(())
    }

    #[tactic(auto, unfolding(crate::specs::Reading::fact_step))]
    fn add_fact(&mut self, f: Fact<Bounded>) -> Result<(), LineRefusal>
        ensures { MatchResult result (λ _. fact_step self.old f ≡ Ok self.new) (λ e. IsRefusalOf (fact_step self.old f) e) }
    {
        if !is_fact_above(&self.facts, &f) {
            return Err(LineRefusal::Kind(ORDER));
        }
        if !is_fact_next(self.image, &self.facts, &f) {
            return Err(LineRefusal::Kind(CONTENT));
        }
        self.facts.push(f)?;
        self.stage = Stage::Facts;
        Ok(())
    }

    #[tactic(auto, unfolding(crate::specs::Reading::dirty_step))]
    fn add_dirty(&mut self, r: Dirty) -> Result<(), LineRefusal>
        ensures { MatchResult result (λ _. dirty_step self.old r ≡ Ok self.new) (λ e. IsRefusalOf (dirty_step self.old r) e) }
    {
        if !is_dirty_above(&self.dirty, r) {
            return Err(LineRefusal::Kind(ORDER));
        }
        if !is_dirty_next(self.image, &self.dirty, r) {
            return Err(LineRefusal::Kind(CONTENT));
        }
        self.dirty.push(r)?;
        self.stage = Stage::Dirty;
        Ok(())
    }

    #[tactic(auto, unfolding(crate::specs::Reading::block_step))]
    fn add_block(&mut self, c: Counted) -> Result<(), LineRefusal>
        ensures { MatchResult result (λ _. block_step self.old c ≡ Ok self.new) (λ e. IsRefusalOf (block_step self.old c) e) }
    {
        if !is_count_above(&self.blocks, c) {
            return Err(LineRefusal::Kind(ORDER));
        }
        if !c.is_block() {
            return Err(LineRefusal::Kind(CONTENT));
        }
        self.blocks.push(c)?;
        self.stage = Stage::Blocks;
        Ok(())
    }

    // ---- the end of a state

    // The lists of the state that was read, of which none is left.
    fn take_state(&mut self, alloc: Global) -> StateData<Bounded>
        ensures taken { result ≡ self.old.state }
        ensures rest { self.new ≡ record self.old { state = no_state } }
    {
        StateData {
            regs: Items::from_vec(mem::replace(&mut self.regs, Vec::new(alloc))),
            flags: Items::from_vec(mem::replace(&mut self.flags, Vec::new(alloc))),
            note: mem::replace(&mut self.note, None),
            facts: Items::from_vec(mem::replace(&mut self.facts, Vec::new(alloc))),
            dirty: Items::from_vec(mem::replace(&mut self.dirty, Vec::new(alloc))),
            blocks: Items::from_vec(mem::replace(&mut self.blocks, Vec::new(alloc))),
        }
    }

    #[tactic(auto, unfolding(crate::specs::Reading::closed))]
    fn close(&mut self, alloc: Global) -> Result<(), LineRefusal>
        ensures { MatchResult result (λ _. closed self.old ≡ Ok self.new) (λ e. IsRefusalOf (closed self.old) e) }
    {
        let plain = self.take_state(alloc);
        match State::build(alloc, self.image, &plain) {
            Ok(state) => {
                self.rows.push((self.at, state))?;
                Ok(())
            }
            Err(BuildFault::NotWell) => Err(LineRefusal::Kind(CONTENT)),
            Err(BuildFault::Memory) => Err(LineRefusal::Memory),
        }
    }

    // ---- the `end` line

    #[tactic(auto, unfolding(crate::specs::Reading::count_fields, text_fields::specs::Fields::then_field))]
    fn count_fields(&self, mut fields: Fields) -> Option<bool>
        ensures { result ≡ count_fields self.now fields.entry }
    {
        let same = decimal_is(fields.next_field()?, self.rows.len() as u64)?;
        if fields.is_done() { Some(same) } else { None }
    }

    #[tactic(auto, unfolding(crate::specs::Reading::end_step))]
    fn read_end(&mut self, fields: Fields) -> Result<(), LineRefusal>
        ensures { MatchResult result (λ _. end_step self.old fields.entry ≡ Ok self.new) (λ e. IsRefusalOf (end_step self.old fields.entry) e) }
    {
        let Some(same) = self.count_fields(fields) else {
            return Err(LineRefusal::Kind(FIELD));
        };
        if !same {
            return Err(LineRefusal::Kind(COUNT));
        }
        self.stage = Stage::Ended;
        Ok(())
    }

    // ---- all lines

    // A row or the end.
    #[tactic(auto, unfolding(crate::specs::Reading::next_step))]
    fn read_next(&mut self, word: &[u8], fields: Fields) -> Result<(), LineRefusal>
        ensures { MatchResult result (λ _. next_step self.old word.now fields.entry ≡ Ok self.new) (λ e. IsRefusalOf (next_step self.old word.now fields.entry) e) }
    {
        if word == b"row".as_slice() {
            self.read_row(fields)
        } else if word == b"end".as_slice() {
            self.read_end(fields)
        } else {
            Err(LineRefusal::Kind(WORD))
        }
    }

    // A mark, or what stands behind the marks.
    #[tactic(auto, unfolding(crate::specs::Reading::mark_or_next_step))]
    fn read_mark_or_next(&mut self, line: &[u8]) -> Result<(), LineRefusal>
        ensures { MatchResult result (λ _. mark_or_next_step self.old (fields line.now) ≡ Ok self.new) (λ e. IsRefusalOf (mark_or_next_step self.old (fields line.now)) e) }
    {
        let mut fields = Fields::of(line);
        let Some(word) = fields.next_field() else {
            return Err(LineRefusal::Kind(WORD));
        };
        if word == b"open".as_slice() {
            let Some(at) = fields.only_word() else {
                return Err(LineRefusal::Kind(FIELD));
            };
            return self.add_mark(at);
        }
        self.read_next(word, fields)
    }

    // A line that goes on with a state, or the first one that cannot.
    #[tactic(auto, unfolding(crate::specs::Reading::state_step))]
    fn read_state(&mut self, alloc: Global, line: &[u8]) -> Result<(), LineRefusal>
        ensures { MatchResult result (λ _. state_step self.old (fields line.now) ≡ Ok self.new) (λ e. IsRefusalOf (state_step self.old (fields line.now)) e) }
    {
        let mut fields = Fields::of(line);
        let Some(word) = fields.next_field() else {
            return Err(LineRefusal::Kind(WORD));
        };
        let part = part_of(self.stage);
        if word == b"note".as_slice() && part < 1 {
            let Some(note) = note_fields(fields) else {
                return Err(LineRefusal::Kind(FIELD));
            };
            return self.set_note(note);
        }
        if word == b"fact".as_slice() && part <= 2 {
            let Some(f) = fact_fields(fields) else {
                return Err(LineRefusal::Kind(FIELD));
            };
            return self.add_fact(f);
        }
        if word == b"dirty".as_slice() && part <= 3 {
            let Some(r) = dirty_fields(fields) else {
                return Err(LineRefusal::Kind(FIELD));
            };
            return self.add_dirty(r);
        }
        if word == b"block".as_slice() {
            let Some(c) = block_fields(fields) else {
                return Err(LineRefusal::Kind(FIELD));
            };
            return self.add_block(c);
        }
        self.close(alloc)?;
        self.read_next(word, fields)
    }

    // The table of all lines.
    fn into_table(self) -> Table<Bounded>
        ensures { told (Ok self.entry) ≡ Ok result }
    {
        let TableReader {
            image: _,
            stage: _,
            k,
            marked,
            rows,
            at: _,
            regs: _,
            flags: _,
            note: _,
            facts: _,
            dirty: _,
            blocks: _,
        } = self;
        Table {
            k,
            rows: Items::from_vec(rows),
            marked: Items::from_vec(marked),
        }
    }
}

impl<'a> LineReader for TableReader<'a> {
    ghost use Rattle.table_check.specs.Reading.{table_grammar};

    ghost grammar = { table_grammar };

    #[tactic(auto, unfolding(crate::specs::Reading::table_step))]
    fn read_line(&mut self, alloc: Global, line: &[u8]) -> Result<(), LineRefusal> {
        match self.stage {
            Stage::Start => self.read_header(line),
            Stage::Header => self.read_k(line),
            Stage::Marks => self.read_mark_or_next(line),
            Stage::Row => self.read_regs(alloc, line),
            Stage::Regs => self.read_flags(alloc, line),
            Stage::Flags => self.read_state(alloc, line),
            Stage::Note => self.read_state(alloc, line),
            Stage::Facts => self.read_state(alloc, line),
            Stage::Dirty => self.read_state(alloc, line),
            Stage::Blocks => self.read_state(alloc, line),
            Stage::Ended => Err(LineRefusal::Kind(END)),
        }
    }

    fn is_ended(&self) -> bool {
        match self.stage {
            Stage::Ended => true,
            Stage::Start
            | Stage::Header
            | Stage::Marks
            | Stage::Row
            | Stage::Regs
            | Stage::Flags
            | Stage::Note
            | Stage::Facts
            | Stage::Dirty
            | Stage::Blocks => false,
        }
    }
}

/// The table of an image that a text of version 1 tells; refuses the text exactly at its first bad line.
#[tactic(auto, unfolding(crate::specs::Reading::table_read))]
pub fn read_table(alloc: Global, image: &Image, bytes: &[u8]) -> Result<Table<Bounded>, TextFault>
    ensures { MatchResult result (λ t. table_read image.now bytes.now ≡ Ok t) (λ fault. IsFaultOf (table_read image.now bytes.now) fault) }
{
    match read_lines(alloc, TableReader::new(alloc, image), bytes) {
        Ok(reader) => Ok(reader.into_table()),
        Err(fault) => Err(fault),
    }
}
