ghost use Rattle.std.specs.Prelude.{◌≡◌, ◌≤◌, IfOk, length};

use arrayvec::ArrayVec;
use memory_map::Name;
use std::alloc::{AllocError, Global};

/// What a step did: the bytes of its instruction, or the import's name.
#[derive(Drop, PartialEq, Eq, PartialOrd, Ord)]
pub enum Label {
    Code(ArrayVec<u8, 15>),
    Import(Name),
}

/// A step from one address to another. Edges are ordered by their fields.
#[derive(Drop, PartialEq, Eq, PartialOrd, Ord)]
pub struct Edge {
    pub from: u32,
    pub to: u32,
    pub label: Label,
}

impl Label {
    /// The label of an instruction with these bytes.
    pub fn code(bytes: &[u8]) -> Label
        requires { length bytes.now ≤ 15 }
        ensures { result ≡ Label.Code (record { items = bytes.now }) }
    {
        let mut held = ArrayVec::new();
        for b in bytes {
            held.push(*b);
        }
        Label::Code(held)
    }

    /// The same label again.
    pub fn copy(&self, alloc: Global) -> Result<Label, AllocError>
        ensures { IfOk result (λ copy. copy ≡ self.now) }
    {
        match self {
            Label::Code(bytes) => Ok(Label::code(bytes.as_slice())),
            Label::Import(name) => Ok(Label::Import(name.copy(alloc)?)),
        }
    }
}

impl Edge {
    /// The same edge again.
    pub fn copy(&self, alloc: Global) -> Result<Edge, AllocError>
        ensures { IfOk result (λ copy. copy ≡ self.now) }
    {
        Ok(Edge {
            from: self.from,
            to: self.to,
            label: self.label.copy(alloc)?,
        })
    }
}
