ghost use Rattle.std.specs.Prelude.{◌≡◌, map};
ghost use Rattle.automaton_text.specs.Text.{as_version_1, without_row};

use crate::{Automaton, OpenMark};
use memory_map::Items;

impl Automaton {
    /// The same automaton in version 1, which tells no rows; takes no memory.
    pub fn as_version_1(self) -> Automaton
        ensures { result ≡ as_version_1 self }
    {
        let Automaton {
            version: _,
            entry,
            locations,
            edges,
            marks,
        } = self;
        let mut marks = marks.into_vec();
        clear_rows(&mut marks);
        Automaton {
            version: 1,
            entry,
            locations,
            edges,
            marks: Items::from_vec(marks),
        }
    }
}

fn clear_rows(marks: &mut [OpenMark])
    ensures { marks.new ≡ map without_row marks.old }
{
    for m in marks.iter_mut() {
        m.row = None;
    }
}
