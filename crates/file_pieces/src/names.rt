ghost use Rattle.std.specs.Prelude.{◌≡◌, ◌⊎◌, ◌<◌, ◌≤◌, [], false, true, map, length, IfOk, IsTrue, MatchResult};
ghost use Rattle.std.specs.List.{list_all};
ghost use Rattle.memory_map.specs.Name.{MOST_NAMES, is_name};
ghost use Rattle.file_pieces.specs.Names.{index_of, is_named, with_name};

use indexmap::IndexSet;
use memory_map::{MOST_NAMES, Name};
use std::alloc::{AllocError, AllocFailed, Global};
use std::marker::Model;

/// Names of imports, at most 65,535, which contracts see as a list.
#[derive(Drop)]
pub struct Names {
    held: Vec<Name>,
}

impl Model for Names {
    ghost use Rattle.std.specs.Prelude.{List, ℕ, ◌≤◌, length};
    ghost use Rattle.memory_map.specs.Name.{MOST_NAMES};

    ghost Value = { List (List ℕ) };

    ghost view = { λ n. n.held.items };

    ghost invariant = { λ n. length n.held.items ≤ MOST_NAMES };
}

impl Names {
    /// The names, in order.
    pub fn as_slice(&self) -> &[Name]
        ensures names { result.now ≡ self.now }
        ensures few { length self.now ≤ MOST_NAMES }
    {
        self.held.as_slice()
    }

    /// The vector again; takes no memory.
    pub fn into_vec(self) -> Vec<Name>
        ensures names { result.items ≡ self }
        ensures few { length self ≤ MOST_NAMES }
    {
        self.held
    }

    /// How many there are.
    pub fn len(&self) -> usize
        ensures length { result ≡ length self.now }
        ensures few { length self.now ≤ MOST_NAMES }
    {
        self.held.len()
    }
}

/// Why a name has no index.
#[derive(Clone, Copy, Debug, PartialEq, Eq)]
pub enum NameFault {
    /// There are 65,535 other names.
    Full,
    Memory,
}

impl From<AllocError> for NameFault {
    ghost use Rattle.file_pieces.specs.declared.names.NameFault.TheVariants.{Memory};

    ghost from_gives = { λ _ e. e ≡ Memory };

    fn from(_e: AllocError) -> NameFault {
        NameFault::Memory
    }
}

impl<T: Drop> From<AllocFailed<T>> for NameFault {
    ghost use Rattle.file_pieces.specs.declared.names.NameFault.TheVariants.{Memory};

    ghost from_gives = { λ _ e. e ≡ Memory };

    fn from(_e: AllocFailed<T>) -> NameFault {
        NameFault::Memory
    }
}

/// Names of imports in the order in which they were first given, each once and at most 65,535; contracts see them as a list.
#[derive(Drop)]
pub struct SeenNames {
    held: IndexSet<Vec<u8>>,
}

impl Model for SeenNames {
    ghost use Rattle.std.specs.Prelude.{List, ℕ, map};
    ghost use Rattle.file_pieces.specs.Names.{AreNames};

    ghost Value = { List (List ℕ) };

    ghost view = { λ n. map (λ v. v.items) n.held.keys };

    ghost invariant = { λ n. AreNames (map (λ v. v.items) n.held.keys) };
}

fn names_of(alloc: Global, keys: IndexSet<Vec<u8>>) -> Result<Vec<Name>, AllocError>
    requires { list_all is_name (map (λ v. v.items) keys.keys) ≡ true }
    ensures { IfOk result (λ names. names.items ≡ map (λ v. v.items) keys.keys) }
{
    let mut names = Vec::with_capacity(alloc, keys.len())?;
    for key in keys {
        match Name::new(key) {
            Some(name) => names.push(name)?,
            None => unreachable!(),
        }
    }
    Ok(names)
}

impl SeenNames {
    /// No names.
    pub fn new(alloc: Global) -> SeenNames
        ensures { result ≡ [] }
    {
        SeenNames {
            held: IndexSet::new(alloc),
        }
    }

    /// The index of a name, which goes last where it was not given before. A refusal changes nothing.
    pub fn index_of(&mut self, alloc: Global, name: &[u8]) -> Result<u32, NameFault>
        requires { IsTrue (is_name name.now) }
        ensures { MatchResult result (λ i. (i ≡ index_of self.old name.now) × (self.new ≡ with_name self.old name.now) × (i < length self.new) × (length self.new ≤ MOST_NAMES)) (λ e. (self.new ≡ self.old) × ((e ≡ NameFault.Memory) ⊎ ((e ≡ NameFault.Full) × (is_named self.old name.now ≡ false) × (MOST_NAMES ≤ length self.old)))) }
    {
        match self.held.get_index_of(name) {
            Some(index) => Ok(index as u32),
            None => self.push(alloc, name),
        }
    }

    /// The list of the names.
    pub fn into_names(self, alloc: Global) -> Result<Names, AllocError>
        ensures { IfOk result (λ names. names ≡ self) }
    {
        let SeenNames { held } = self;
        let held = names_of(alloc, held)?;
        Ok(Names { held })
    }

    fn push(&mut self, alloc: Global, name: &[u8]) -> Result<u32, NameFault>
        requires name { IsTrue (is_name name.now) }
        requires other { is_named self.old name.now ≡ false }
        ensures { MatchResult result (λ i. (i ≡ index_of self.old name.now) × (self.new ≡ with_name self.old name.now) × (i < length self.new) × (length self.new ≤ MOST_NAMES)) (λ e. (self.new ≡ self.old) × ((e ≡ NameFault.Memory) ⊎ ((e ≡ NameFault.Full) × (is_named self.old name.now ≡ false) × (MOST_NAMES ≤ length self.old)))) }
    {
        if self.held.len() >= MOST_NAMES {
            return Err(NameFault::Full);
        }
        let key = Vec::from_slice(alloc, name)?;
        let (index, _) = self.held.insert_full(key)?;
        Ok(index as u32)
    }
}
