ghost use Rattle.std.specs.Prelude.{◌≡◌, ◌&&◌, pos, ◌+ℤ◌, int_lt};
ghost use Rattle.abstract_state.specs.Notes.{compared_with, covers_note, is_in_bytes, is_of_register, note_unless, same_note};

use address_regions::Region;
use partitioned_memory::Area;

/// The comparison that gave the flags: of a register or of a word of the stack with a number.
#[derive(Clone, Copy, Debug, PartialEq, Eq)]
pub enum Note {
    /// The register of a number from 0 to 7, and what it was compared with.
    Register(u8, u32),
    /// The word at an offset in the stack, and what it was compared with.
    Word(i64, u32),
}

// Whether the word at an offset has a byte from another offset on and below a third.
fn meets_word(o: i64, low: i64, end: i128) -> bool
    ensures { result ≡ (int_lt low (o +ℤ pos 4) && int_lt o end) }
{
    i128::from(low) < i128::from(o) + 4 && i128::from(o) < end
}

impl Note {
    pub(crate) fn is_of_register(self, r: u8) -> bool
        ensures { result ≡ is_of_register r self }
    {
        match self {
            Note::Register(q, _) => q == r,
            Note::Word(_, _) => false,
        }
    }

    // Whether the noted word has a byte of a region from one offset on and below another.
    #[tactic(auto, unfolding(partitioned_memory::specs::Areas::same_area))]
    fn is_in_bytes(self, region: Region, low: i64, end: i128) -> bool
        ensures { result ≡ is_in_bytes (Area.In region) low end self }
    {
        match self {
            Note::Register(_, _) => false,
            Note::Word(o, _) => {
                Area::In(region) == Area::In(Region::Stack) && meets_word(o, low, end)
            }
        }
    }

    /// What the noted register or word was compared with.
    pub(crate) fn compared_with(self) -> u32
        ensures { result ≡ compared_with self }
    {
        match self {
            Note::Register(_, c) | Note::Word(_, c) => c,
        }
    }

    fn is(self, other: Note) -> bool
        ensures { result ≡ same_note self other }
    {
        match (self, other) {
            (Note::Register(r, c), Note::Register(q, e)) => r == q && c == e,
            (Note::Word(o, c), Note::Word(q, e)) => o == q && c == e,
            _ => false,
        }
    }
}

/// Whether there is no first note, or it is the second.
pub(crate) fn covers(t: Option<Note>, s: Option<Note>) -> bool
    ensures { result ≡ covers_note t s }
{
    match (t, s) {
        (None, _) => true,
        (Some(t), Some(s)) => t.is(s),
        (Some(_), None) => false,
    }
}

/// The note, unless it is of a register.
pub(crate) fn without_register(note: Option<Note>, r: u8) -> Option<Note>
    ensures { result ≡ note_unless (is_of_register r) note }
{
    match note {
        Some(n) => { if n.is_of_register(r) { None } else { Some(n) } }
        None => None,
    }
}

/// The note, unless its word has a byte of a region from one offset on and below another.
pub(crate) fn without_bytes(note: Option<Note>, region: Region, low: i64, end: i128) -> Option<Note>
    ensures { result ≡ note_unless (is_in_bytes (Area.In region) low end) note }
{
    match note {
        Some(n) => {
            if n.is_in_bytes(region, low, end) {
                None
            } else {
                Some(n)
            }
        }
        None => None,
    }
}
